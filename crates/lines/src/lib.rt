// Texts and numbers put into a buffer, and the lines that `lenscheck` and `sheet` print of a program and `tally` of a put, put there part by part. Each function answers the place behind what it put.
#![tactic(auto)]

ghost use Rattle.std.specs.Prelude.{◌≡◌, ◌+◌, ◌≤◌, length};
ghost use Rattle.semantics.specs.Calls.{decimal, field};
ghost use Rattle.semantics.specs.Tally.{counts_line};
ghost use Rattle.lines.specs.Line.{Puts, accepted_line, refused_line, counts};

use texts::write_text;

// Kept by hand: `Puts` speaks of the buffer and the place before and after, so each function is lent the buffer and answers the place.
pub fn put_text(text: &[u8], at: usize, out: &mut [u8]) -> usize
    requires { at + length text.now ≤ length out.old }
    ensures { Puts text.now at result out.old out.new }
{
    write_text(text, &mut out[at..]);
    at + text.len()
}

// How many digits a number has, which are at most 20.
pub fn digit_count(number: usize) -> usize
    ensures { result ≡ length (decimal number) }
{
    let mut room = [0u8; 20];
    io::decimal(number as u64, &mut room)
}

pub fn put_number(number: usize, at: usize, out: &mut [u8]) -> usize
    requires { at + length (decimal number) ≤ length out.old }
    ensures { Puts (decimal number) at result out.old out.new }
{
    let mut digits = [0u8; 20];
    let n = io::decimal(number as u64, &mut digits);
    put_text(&digits[..n], at, out)
}

// A space and a number.
fn put_field(number: usize, at: usize, out: &mut [u8]) -> usize
    requires { at + 21 ≤ length out.old }
    ensures puts { Puts (field number) at result out.old out.new }
    ensures short { result ≤ at + 21 }
{
    let next = put_text(b" ", at, out);
    put_number(number, next, out)
}

// The line of an accepted program, at the start of the buffer.
pub fn put_accepted(count: usize, sources: usize, sheets: usize, out: &mut [u8]) -> usize
    requires { 66 ≤ length out.old }
    ensures puts { Puts (accepted_line count sources sheets) 0 result out.old out.new }
    ensures short { result ≤ 66 }
{
    let first = put_text(b"ok", 0, out);
    let second = put_field(count, first, out);
    let third = put_field(sources, second, out);
    let end = put_field(sheets, third, out);
    put_text(b"\n", end, out)
}

// The line of a refusal, at the start of the buffer.
pub fn put_refused(number: usize, node: usize, out: &mut [u8]) -> usize
    requires { 64 ≤ length out.old }
    ensures puts { Puts (refused_line number node) 0 result out.old out.new }
    ensures short { result ≤ 64 }
{
    let first = put_text(b"refused", 0, out);
    let second = put_field(number, first, out);
    let end = put_field(node, second, out);
    put_text(b"\n", end, out)
}

// The line of a put's counts, at the start of the buffer.
pub fn put_counts(kept: usize, made: usize, dropped: usize, out: &mut [u8]) -> usize
    requires { 81 ≤ length out.old }
    ensures puts { Puts (counts_line (counts kept made dropped)) 0 result out.old out.new }
    ensures short { result ≤ 81 }
{
    let first = put_text(b"kept", 0, out);
    let second = put_field(kept, first, out);
    let third = put_text(b" made", second, out);
    let fourth = put_field(made, third, out);
    let fifth = put_text(b" dropped", fourth, out);
    let end = put_field(dropped, fifth, out);
    put_text(b"\n", end, out)
}
