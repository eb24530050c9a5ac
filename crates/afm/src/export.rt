// Export: the kerning section of sheet lines.
ghost use Rattle.std.specs.Prelude.{◌≤◌, length};
ghost use Rattle.sections.specs.Afm.{export_call};
ghost use Rattle.answers.specs.Outcomes.{GivesText};
ghost use Rattle.lines.specs.Line.{Puts};
ghost use Rattle.afm.specs.Section.{section_text};

use crate::pair_lines::{measure, put_lines};
use crate::{TEXT, refuse_line};
use answers::Answer;
use answers::results::refuse;
use fields::Form;
use lines::{digit_count, put_number, put_text};

pub fn export(sheet: &[u8], out: &mut [u8]) -> Answer
    ensures { GivesText (export_call sheet.now (length out.old)) out.old out.new result }
{
    if TEXT < sheet.len() {
        return Err(refuse(12));
    }
    let found = measure(Form::Sheet, sheet);
    let count = found.count;
    if !found.rest.is_empty() {
        return Err(refuse_line(1 + count));
    }
    // each line gets `KPX` and a space; the first and the last line have 29 bytes, and the count
    let length = found.bytes + 4 * count + 29 + digit_count(count);
    if out.len().min(TEXT) < length {
        return Err(refuse(16));
    }
    put_section(count, sheet, out);
    Ok(length)
}

// The first line, those of the pairs, and the last.
fn put_section(count: usize, sheet: &[u8], out: &mut [u8]) -> usize
    requires { length (section_text count sheet.now) ≤ length out.old }
    ensures { Puts (section_text count sheet.now) 0 result out.old out.new }
{
    let number = put_text(b"StartKernPairs ", 0, out);
    let end = put_number(count, number, out);
    let next = put_text(b"\n", end, out);
    let last = put_lines(Form::Sheet, sheet, next, out);
    put_text(b"EndKernPairs\n", last, out)
}
