// A case's answer: its name, and `result` with the length and what it holds, or `refused` with number and node; then whether the rest of the buffer,
// of a refusal all of it, is `untouched` or `changed`.
use answers::Answer;
use std::io;
use table::Refusal;

// Above this, a sum over a text's bytes stands for it.
const LONGEST_SHOWN: usize = 200;

// In each byte of a buffer before a call, so that a byte that the call leaves is known.
const MARK: u8 = b'.';

// What sums are taken modulo: the largest prime below 2 to the 32.
const PRIME: u64 = 4294967291;

// A text in quotes, or the sum of a longer one.
fn write_content(rt: &impl Print, text: &[u8]) -> io::Result<()> {
    if text.len() <= LONGEST_SHOWN {
        rt.write_all(b" \"")?;
        rt.write_all(text)?;
        rt.write_all(b"\"")
    } else {
        print!(rt; " sum {}", sum(text))
    }
}

// By what a long text is compared: each byte is added to 257 times the sum so far.
fn sum(text: &[u8]) -> u64 {
    text.iter().fold(
        0,
        |so_far, byte| (so_far % PRIME * 257 + u64::from(*byte)) % PRIME,
    )
}

// Whether no byte of a part of the buffer was set.
fn untouched(part: &[u8]) -> bool {
    part.iter().all(|byte| *byte == MARK)
}

// The end of a line: how the part of the buffer is that is no result.
fn end(rt: &impl Print, part: &[u8]) -> io::Result<()> {
    if untouched(part) {
        rt.write_all(b" untouched\n")
    } else {
        rt.write_all(b" changed\n")
    }
}

// The text that a call would be made with.
pub fn text(rt: &impl Print, name: &[u8], text: &[u8]) -> io::Result<()> {
    rt.write_all(name)?;
    print!(rt; ": length {}", text.len())?;
    write_content(rt, text)?;
    rt.write_all(b"\n")
}

// What a call with a text answers, whose result is at the start of the buffer that it is lent. Returns the result's length, if there is one.
pub fn answer<F: FnOnce(&[u8], &mut [u8]) -> Answer>(
    rt: &impl Print,
    name: &[u8],
    text: &[u8],
    out: &mut [u8],
    call: F,
) -> io::Result<Option<usize>>
    requires { F.IsAlwaysCallable call }
{
    out.fill(MARK);
    let answer = call(text, out);
    rt.write_all(name)?;
    match answer {
        Ok(length) => result(rt, length, out),
        Err(refusal) => refused(rt, refusal, out),
    }
}

fn result(rt: &impl Print, length: usize, out: &[u8]) -> io::Result<Option<usize>> {
    let n = length.min(out.len());
    print!(rt; ": result {length}")?;
    write_content(rt, &out[..n])?;
    end(rt, &out[n..])?;
    Ok(Some(n))
}

fn refused(rt: &impl Print, refusal: Refusal, out: &[u8]) -> io::Result<Option<usize>> {
    print!(rt; ": refused {} {}", refusal.number, refusal.node)?;
    end(rt, out)?;
    Ok(None)
}
