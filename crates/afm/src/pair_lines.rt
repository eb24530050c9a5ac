// The lines with a pair that stand first in a text: measured, and written in the other form.
ghost use Rattle.std.specs.Prelude.{◌≡◌, ◌+◌, ◌≤◌, ◌<◌, ◌^◌, length};
ghost use Rattle.sections.specs.Afm.{sheet_line};
ghost use Rattle.fields.specs.Lines.{pair_in};
ghost use Rattle.lines.specs.Line.{Puts};
ghost use Rattle.afm.specs.Pairs.{Measures, lead_for, mark_for, line_for, lines_for};

use fields::{Form, PairLine, pair_line};
use lines::put_text;

// How many pairs stand first, how many bytes their lines have in a sheet, and the text behind them.
#[derive(Clone, Copy)]
pub struct Measured<'a> {
    pub count: usize,
    pub bytes: usize,
    pub rest: &'a [u8],
}

pub fn measure(form: Form, text: &[u8]) -> Measured<'_>
    ensures { Measures form text.now result }
{
    let mut rest = text;
    let mut count = 0;
    let mut bytes = 0;
    while let Some(line) = pair_line(form, rest) {
        count += 1;
        bytes += sheet_length(line);
        rest = line.rest;
    }
    Measured { count, bytes, rest }
}

// The names and the value, two semicolons and the newline.
fn sheet_length(line: PairLine<'_>) -> usize
    requires { length (sheet_line (pair_in line)) < 2 ^ 64 }
    ensures { result ≡ length (sheet_line (pair_in line.entry)) }
{
    line.left.len() + line.right.len() + line.value.len() + 3
}

// What stands in front of the left name in the other form.
fn put_lead(form: Form, at: usize, out: &mut [u8]) -> usize
    requires { at + length (lead_for form) ≤ length out.old }
    ensures { Puts (lead_for form) at result out.old out.new }
{
    match form {
        Form::Kpx => at,
        Form::Sheet => put_text(b"KPX ", at, out),
    }
}

// What separates fields in the other form.
fn put_mark(form: Form, at: usize, out: &mut [u8]) -> usize
    requires { at + 1 ≤ length out.old }
    ensures { Puts (mark_for form) at result out.old out.new }
{
    match form {
        Form::Kpx => put_text(b";", at, out),
        Form::Sheet => put_text(b" ", at, out),
    }
}

// The line of a pair in the other form.
fn put_line(form: Form, line: PairLine<'_>, at: usize, out: &mut [u8]) -> usize
    requires { at + length (line_for form (pair_in line)) ≤ length out.old }
    ensures { Puts (line_for form (pair_in line.entry)) at result out.old out.new }
{
    let left = put_lead(form, at, out);
    let between = put_text(line.left, left, out);
    let right = put_mark(form, between, out);
    let behind = put_text(line.right, right, out);
    let value = put_mark(form, behind, out);
    let end = put_text(line.value, value, out);
    put_text(b"\n", end, out)
}

// The lines of all pairs that stand first, in the other form.
pub fn put_lines(form: Form, text: &[u8], at: usize, out: &mut [u8]) -> usize
    requires { at + length (lines_for form text.now) ≤ length out.old }
    ensures { Puts (lines_for form text.now) at result out.old out.new }
{
    let mut rest = text;
    let mut next = at;
    while let Some(line) = pair_line(form, rest) {
        next = put_line(form, line, next, out);
        rest = line.rest;
    }
    next
}
