// Import: the sheet lines of a kerning section.
ghost use Rattle.std.specs.Prelude.{◌≤◌, length};
ghost use Rattle.sections.specs.Afm.{import_call, imported};
ghost use Rattle.answers.specs.Outcomes.{GivesText};
ghost use Rattle.afm.specs.Section.{section_behind};

use crate::pair_lines::{measure, put_lines};
use crate::section::{end_fault, start_line};
use crate::{TEXT, refuse_line};
use answers::Answer;
use answers::results::refuse;
use fields::Form;

pub fn import(section: &[u8], out: &mut [u8]) -> Answer
    ensures { GivesText (import_call section.now (length out.old)) out.old out.new result }
{
    if TEXT < section.len() {
        return Err(refuse(12));
    }
    let Some(start) = start_line(section) else {
        return Err(refuse_line(1));
    };
    import_pairs(start.count, start.lines, out)
}

// The same, from the line behind the first on.
fn import_pairs(count: usize, lines: &[u8], out: &mut [u8]) -> Answer
    requires { length lines.now ≤ 65535 }
    ensures { GivesText (imported (section_behind count lines.now) (length out.old)) out.old out.new result }
{
    let found = measure(Form::Kpx, lines);
    if let Some(line) = end_fault(found.rest) {
        return Err(refuse_line(1 + found.count + line));
    }
    if count != found.count {
        return Err(refuse(19));
    }
    if out.len().min(TEXT) < found.bytes {
        return Err(refuse(16));
    }
    put_lines(Form::Kpx, lines, 0, out);
    Ok(found.bytes)
}
