// Put of chosen sheet entries of a source. All that it knows of the program it asks the calls: a text is a source if get does not refuse it with 13, and
// a part of a repeat ends at the first place at which the text before it and the text behind it are sources.
#![tactic(auto)]

ghost use Rattle.std.specs.Prelude.{◌≤◌, length};
ghost use Rattle.demands.specs.Demands.{PutMade, SetsInOrder};
ghost use Rattle.chosen.specs.Parting.{TellsSource, TellsCut, EndsPart, StartsPart, SheetOfPart, SheetOfParts};

use arrays::filled;
use demands::Chosen;
use engine::get::get;
use engine::put::put;

// Which sheet is put together is left open where the choice is no list of part numbers of such a source, or its entries are longer than 4,096 bytes.
pub fn put_chosen(bytes: &[u8], source: &[u8], choice: &[usize]) -> Chosen
    ensures made { PutMade bytes.now source.now result }
    ensures demand { SetsInOrder bytes.now source.now choice.now result }
{
    let mut sheet: [u8; 4096] = filled(0);
    let mut given: [u8; 4096] = filled(0);
    let length = sheet_of_parts(bytes, source, choice, &mut sheet);
    let answer = put(bytes, &sheet[..length], source, &mut given);
    Chosen {
        sheet,
        length,
        answer,
        given,
    }
}

// The sheet entries of the chosen parts, one behind the other.
fn sheet_of_parts(bytes: &[u8], source: &[u8], choice: &[usize], out: &mut [u8]) -> usize
    ensures { SheetOfParts bytes.now source.now choice.now out.new result }
{
    let mut n = 0;
    for number in choice {
        n += sheet_of_part(bytes, source, *number, &mut out[n..]);
    }
    n
}

// 'A sheet entry is the sheet of one such part alone': get of the part, at the start of the buffer.
fn sheet_of_part(bytes: &[u8], source: &[u8], number: usize, out: &mut [u8]) -> usize
    ensures { SheetOfPart bytes.now source.now number out.old out.new result }
{
    let start = part_start(bytes, source, number);
    let end = part_end(bytes, source, start);
    get(bytes, &source[start..end], out).unwrap_or(0)
}

// Where a part begins; the first has number 1.
fn part_start(bytes: &[u8], source: &[u8], number: usize) -> usize
    ensures { StartsPart bytes.now source.now number result }
{
    let mut start = 0;
    for _part in 1..number {
        start = part_end(bytes, source, start);
    }
    start
}

// Where the part that begins there ends.
fn part_end(bytes: &[u8], source: &[u8], start: usize) -> usize
    requires { start ≤ length source.now }
    ensures { EndsPart bytes.now source.now start result }
{
    for end in start + 1..source.len() {
        if is_cut(bytes, source, start, end) {
            return end;
        }
    }
    source.len()
}

// Whether the text between the two places and the text behind them are sources.
fn is_cut(bytes: &[u8], source: &[u8], start: usize, end: usize) -> bool
    requires from_start { start ≤ end }
    requires within { end ≤ length source.now }
    ensures { TellsCut bytes.now source.now start end result }
{
    is_source(bytes, &source[start..end]) && is_source(bytes, &source[end..])
}

// Get refuses what is no source with 13.
fn is_source(bytes: &[u8], text: &[u8]) -> bool
    ensures { TellsSource bytes.now text.now result }
{
    let mut sheet: [u8; 4096] = filled(0);
    match get(bytes, text, &mut sheet) {
        Ok(_) => true,
        Err(refusal) => refusal.number != 13,
    }
}
