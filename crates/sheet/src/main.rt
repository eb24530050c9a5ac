// The command line program: `sheet check TABLE`, `sheet get TABLE SOURCE`, `sheet put TABLE SHEET SOURCE`, `sheet create TABLE SHEET`.
#![tactic(auto)]

ghost use Rattle.std.specs.Prelude.{◌≤◌, length};

use std::env::{Env, FillError};

// A word of the command line, and none if it is missing. One that is too long for a path fills the buffer, and no file is opened by such a name.
fn word<'a>(rt: &impl Env, i: usize, buffer: &'a mut [u8]) -> &'a [u8]
    ensures { length result.now ≤ length buffer.old }
{
    match rt.arg(i, buffer) {
        Ok(n) => &buffer[..n],
        Err(FillError::TooLong) => buffer,
        Err(FillError::NotPresent) => b"",
    }
}

fn is_given(rt: &impl Env, i: usize) -> bool {
    let mut start = [0u8; 1];
    !matches!(rt.arg(i, &mut start), Err(FillError::NotPresent))
}

// How many words are given behind the program's name; of five or more, 5, which is one more than any command takes.
fn word_count(rt: &impl Env) -> usize
    ensures { result ≤ 5 }
{
    (1..=5).take_while(|i| is_given(rt, *i)).count()
}

fn main(rt: HostRuntime) {
    let mut command = [0u8; 4096];
    let mut first = [0u8; 4096];
    let mut second = [0u8; 4096];
    let mut third = [0u8; 4096];
    if !is_given(&rt, 0) {
        return;
    }
    // Of a fifth word, which no command takes, it only matters that it is there.
    let words = [
        word(&rt, 1, &mut command),
        word(&rt, 2, &mut first),
        word(&rt, 3, &mut second),
        word(&rt, 4, &mut third),
        b"",
    ];
    commands::run::run(&rt, &rt.stderr(), &words[..word_count(&rt)]);
}
