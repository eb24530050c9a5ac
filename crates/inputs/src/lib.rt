// What the programs share in reading: a buffer is filled from a stream or a file, and what failed is told.
#![tactic(auto)]

ghost use Rattle.std.specs.Prelude.{◌≤◌, IfOk, IfSome, length};

use std::alloc::Global;
use std::io::{Error, ErrorKind, Read};
use std::rt::Files;
use std::{fs, io};

// Reads until the buffer is full or the input ends, and returns what it read. The promise limits: it leaves open which bytes.
pub fn read_full<'a, R: Read>(input: &mut R, buffer: &'a mut [u8]) -> io::Result<&'a [u8]>
    ensures { IfOk result (λ bytes. length bytes.now ≤ length buffer.old) }
{
    let mut done = 0;
    while done < buffer.len() {
        let more = input.read(&mut buffer[done..])?;
        if more == 0 {
            break;
        }
        done += more;
    }
    Ok(&buffer[..done])
}

// What a file holds, as far as the buffer goes; or none, and `errors` is told why, and then what that means. A file that cannot be opened holds nothing
// where `is_empty` says so of the error. The promise limits: it leaves open which bytes are read, and whether there are any.
pub fn read_file<'a, R: Files + AllocGlobal, E: Print, F: FnOnce(&Error) -> bool>(
    rt: &R,
    errors: &E,
    path: &[u8],
    buffer: &'a mut [u8],
    is_empty: F,
    meaning: &[u8],
) -> Option<&'a [u8]>
    requires { F.IsAlwaysCallable is_empty }
    ensures { IfSome result (λ bytes. length bytes.now ≤ length buffer.old) }
{
    match read_path(rt, path, buffer, is_empty) {
        Ok(bytes) => Some(bytes),
        Err(why) => {
            tell_failure(errors, rt.alloc(), path, &why);
            say(errors, meaning);
            None
        }
    }
}

fn read_path<'a, R: Files, F: FnOnce(&Error) -> bool>(
    rt: &R,
    path: &[u8],
    buffer: &'a mut [u8],
    is_empty: F,
) -> io::Result<&'a [u8]>
    requires { F.IsAlwaysCallable is_empty }
    ensures { IfOk result (λ bytes. length bytes.now ≤ length buffer.old) }
{
    match open(rt, path) {
        Ok(mut file) => read_full(&mut file, buffer),
        Err(why) => {
            if is_empty(&why) {
                Ok(&buffer[..0])
            } else {
                Err(why)
            }
        }
    }
}

fn open<R: Files>(rt: &R, path: &[u8]) -> io::Result<R::File> {
    let Ok(name) = str::from_utf8(path) else {
        return Err(Error::new(ErrorKind::InvalidInput, "not UTF-8"));
    };
    fs::open(rt, name)
}

// A line: what failed, a colon, and why. That the line itself cannot be written changes nothing.
pub fn tell_failure(to: &impl Print, alloc: Global, what: &[u8], why: &Error) {
    say(to, what);
    say(to, b": ");
    say_cause(to, alloc, why);
    say(to, b"\n");
}

// Bytes to a stream whose failure changes nothing.
pub fn say(to: &impl Print, text: &[u8]) {
    let _ = to.write_all(text);
}

// The system's words for an error, without its number, which std puts behind them.
fn say_cause(to: &impl Print, alloc: Global, why: &Error) {
    match format!(in alloc; "{why}") {
        Ok(text) => say(to, without_number(text.as_str()).as_bytes()),
        Err(_) => {
            let _ = to.print(why);
        }
    }
}

fn without_number(text: &str) -> &str {
    match text.split_once(" (os error ") {
        Some((words, _)) => words,
        None => text,
    }
}
