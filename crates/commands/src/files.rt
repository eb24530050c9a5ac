// Files, read whole.
ghost use Rattle.std.specs.Prelude.{◌<◌, ◌≤◌, IfSome, length};

use inputs::{read_file, say};
use std::rt::Files;

// What a file holds, whose end has to come before the buffer's; or none, and standard error says why. The promise limits: it leaves open which bytes
// are read, and whether there are any.
pub fn read<'a, R: Files + AllocGlobal, E: Print>(
    rt: &R,
    errors: &E,
    path: &[u8],
    buffer: &'a mut [u8],
) -> Option<&'a [u8]>
    ensures { IfSome result (λ bytes. length bytes.now < length buffer.old) }
{
    let room = buffer.len();
    let unreadable = b"sheet: this file cannot be read, so nothing was done\n";
    let bytes = read_file(rt, errors, path, buffer, |_| false, unreadable)?;
    if bytes.len() < room {
        return Some(bytes);
    }
    say(errors, path);
    say(
        errors,
        b": too long\nsheet: a table has at most 899 bytes and a text 4,096, so nothing was done\n",
    );
    None
}

// The same of a file that the command line may not have: without it nothing is read.
pub fn read_given<'a, R: Files + AllocGlobal, E: Print>(
    rt: &R,
    errors: &E,
    path: Option<&[u8]>,
    buffer: &'a mut [u8],
) -> Option<&'a [u8]>
    ensures { IfSome result (λ bytes. length bytes.now ≤ length buffer.old) }
{
    match path {
        Some(path) => read(rt, errors, path, buffer),
        None => Some(b""),
    }
}
