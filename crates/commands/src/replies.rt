// What each command prints on standard output, made at the start of a buffer.
ghost use Rattle.std.specs.Prelude.{◌≡◌, ◌≤◌, length};
ghost use Rattle.commands.specs.Replies.{answer_number, check_outcome, outcome_of, Replies, Finishes};

use crate::command::Command;
use answers::Answer;
use answers::results::without_tally;
use engine::lenscheck_line;
use lines::put_refused;

// How many bytes to print, and the number of the refusal, if it is one.
#[derive(Clone, Copy)]
pub struct Reply {
    pub length: usize,
    pub number: Option<usize>,
}

// The reply to a command with the contents of its files, in the order of the command line. A file that the command does not take is empty.
pub fn reply_to(
    command: Command,
    table: &[u8],
    text: &[u8],
    old_source: &[u8],
    out: &mut [u8],
) -> Reply
    requires { 64 ≤ length out.old }
    ensures { Replies (outcome_of command table.now text.now old_source.now (length out.old)) out.old out.new result }
{
    match command {
        Command::Check => check(table, out),
        Command::Get => finish(engine::get::get(table, text, out), out),
        Command::Put => {
            let answer = engine::put::put(table, text, old_source, out);
            finish(without_tally(answer), out)
        }
        Command::Create => finish(engine::create::create(table, text, out), out),
    }
}

// The line of `lenscheck`.
fn check(table: &[u8], out: &mut [u8]) -> Reply
    requires { 64 ≤ length out.old }
    ensures { Replies (check_outcome table.now) out.old out.new result }
{
    let number = number_of(engine::check(table));
    let length = lenscheck_line(table, out);
    Reply { length, number }
}

fn number_of(answer: Answer) -> Option<usize>
    ensures { result ≡ answer_number answer }
{
    match answer {
        Ok(_) => None,
        Err(refusal) => Some(refusal.number),
    }
}

// A result is printed as it stands in the buffer; a refusal, which left the buffer as it was, by its line.
fn finish(answer: Answer, out: &mut [u8]) -> Reply
    requires { 64 ≤ length out.old }
    ensures { Finishes answer out.old out.new result }
{
    match answer {
        Ok(length) => Reply {
            length,
            number: None,
        },
        Err(refusal) => Reply {
            length: put_refused(refusal.number, refusal.node, out),
            number: Some(refusal.number),
        },
    }
}
