// A case's line: its name, then the text in quotes, `result` and the length of a longer text, or `refused`, number and node; or a put's counts; or
// `no clash`, or `clash` with number, node and the two ends (of a union its children), and then the text as above.
use answers::{Answer, Tally};
use std::io;
use table::Refusal;

// Above this, a text's length stands for it.
const LONGEST_SHOWN: usize = 200;

// In each byte of a buffer before a call, so that a byte that the call leaves is known.
const MARK: u8 = b'-';

// A name and what goes between it and the answer.
fn begin(rt: &impl Print, name: &[u8]) -> io::Result<()> {
    rt.write_all(name)?;
    rt.write_all(b": ")
}

// A text in quotes, and the end of its line.
fn quoted(rt: &impl Print, text: &[u8]) -> io::Result<()> {
    rt.write_all(b"\"")?;
    rt.write_all(text)?;
    rt.write_all(b"\"\n")
}

// A result that is not shown, by its length.
fn result(rt: &impl Print, length: usize) -> io::Result<()> {
    println!(rt; "result {length}")
}

fn refused(rt: &impl Print, refusal: Refusal) -> io::Result<()> {
    println!(rt; "refused {} {}", refusal.number, refusal.node)
}

// What a call answers, whose result is at the start of the buffer that it is lent.
pub fn answer<F: FnOnce(&mut [u8]) -> Answer>(
    rt: &impl Print,
    name: &[u8],
    out: &mut [u8],
    call: F,
) -> io::Result<()>
    requires { F.IsAlwaysCallable call }
{
    begin(rt, name)?;
    out.fill(MARK);
    let answer = call(out);
    answered(rt, answer, out)
}

fn answered(rt: &impl Print, answer: Answer, out: &[u8]) -> io::Result<()> {
    match answer {
        Ok(length) => {
            if length <= LONGEST_SHOWN && length <= out.len() {
                quoted(rt, &out[..length])
            } else {
                result(rt, length)
            }
        }
        Err(refusal) => refused(rt, refusal),
    }
}

// A text that is no answer.
pub fn text(rt: &impl Print, name: &[u8], text: &[u8]) -> io::Result<()> {
    begin(rt, name)?;
    quoted(rt, text)
}

pub fn check(rt: &impl Print, name: &[u8], table: &[u8]) -> io::Result<()> {
    begin(rt, name)?;
    match engine::check(table) {
        Ok(length) => result(rt, length),
        Err(refusal) => refused(rt, refusal),
    }
}

// The line that `lenscheck` prints of a table.
pub fn line(rt: &impl Print, name: &[u8], table: &[u8]) -> io::Result<()> {
    begin(rt, name)?;
    let mut line = [0u8; 64];
    let length = engine::lenscheck_line(table, &mut line);
    rt.write_all(&line[0..length])
}

// The counts of a put.
pub fn counts(
    rt: &impl Print,
    name: &[u8],
    table: &[u8],
    sheet: &[u8],
    source: &[u8],
    out: &mut [u8],
) -> io::Result<()> {
    begin(rt, name)?;
    out.fill(MARK);
    match engine::put::put(table, sheet, source, out) {
        Ok(made) => show_tally(rt, made.tally),
        Err(refusal) => refused(rt, refusal),
    }
}

fn show_tally(rt: &impl Print, tally: Tally) -> io::Result<()> {
    println!(rt;
        "kept {} made {} dropped {}",
        tally.kept, tally.made, tally.dropped
    )
}

pub fn clash(rt: &impl Print, name: &[u8], table: &[u8], out: &mut [u8]) -> io::Result<()> {
    begin(rt, name)?;
    out.fill(MARK);
    match engine::show::clash(table, out) {
        Ok(None) => println!(rt; "no clash"),
        Ok(Some(found)) => {
            rt.write_all(b"clash ")?;
            spaced(rt, found.number, found.node)?;
            spaced(rt, found.first, found.second)?;
            answered(rt, Ok(found.length), out)
        }
        Err(refusal) => refused(rt, refusal),
    }
}

// Two numbers, with a space behind each.
fn spaced(rt: &impl Print, first: usize, second: usize) -> io::Result<()> {
    print!(rt; "{first} {second} ")
}
