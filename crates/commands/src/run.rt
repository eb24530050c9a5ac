// A command from its words on: files are read, and what the reply says is written. Each file has a buffer of 65,536 bytes, far longer than any
// table or text, so that the engine itself refuses what is too long for it; only a file that fills the buffer is turned down here.
ghost use Rattle.std.specs.Prelude.{◌≡◌, ◌≤◌, length, map};
ghost use Rattle.commands.specs.Commands.{understood};

use crate::command::{Command, command_of, words_of};
use crate::files::read_given;
use crate::replies::{Reply, reply_to};
use inputs::say;
use meanings::explain_for;
use std::rt::Files;

// The words of the command line: the command, and the names of its files. Says whether it is one of the four command lines. What is read and written
// is left open, since no contract can say it.
pub fn run<R: Files + Print + AllocGlobal, E: Print>(rt: &R, errors: &E, words: &[&[u8]]) -> bool
    ensures { result ≡ understood (map (λ word. word.now) words.now) }
{
    if let [word, files @ ..] = words
        && let Some(command) = command_of(word)
        && words.len() == words_of(command)
    {
        answer(rt, errors, command, files);
        return true;
    }
    usage(errors);
    false
}

fn usage<E: Print>(errors: &E) {
    say(
        errors,
        b"usage: sheet check TABLE\n       sheet get TABLE SOURCE\n       sheet put TABLE SHEET SOURCE\n       sheet create TABLE SHEET\n",
    );
}

fn answer<R: Files + Print + AllocGlobal, E: Print>(
    rt: &R,
    errors: &E,
    command: Command,
    files: &[&[u8]],
) {
    let mut buffer = [0u8; 65536];
    let Some(table) = read_given(rt, errors, files.get(0).copied(), &mut buffer) else {
        return;
    };
    let mut buffer = [0u8; 65536];
    let Some(text) = read_given(rt, errors, files.get(1).copied(), &mut buffer) else {
        return;
    };
    let mut buffer = [0u8; 65536];
    let Some(old_source) = read_given(rt, errors, files.get(2).copied(), &mut buffer) else {
        return;
    };
    let mut out = [0u8; 4096];
    let reply = reply_to(command, table, text, old_source, &mut out);
    show(rt, errors, reply, &out, table);
}

// The reply to standard output, and to standard error what a refusal means, which depends on the table too.
fn show<R: Print, E: Print>(rt: &R, errors: &E, reply: Reply, out: &[u8], table: &[u8])
    requires { reply.length ≤ length out.now }
{
    if rt.write_all(&out[..reply.length]).is_err() {
        say(errors, b"sheet: not all of the answer could be written\n");
    }
    if let Some(number) = reply.number {
        explain_for(errors, number, table);
    }
}
