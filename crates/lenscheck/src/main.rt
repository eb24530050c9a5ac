// Reads a program table on standard input and prints one line: `ok`, the node count, and the root's source and sheet positions; or `refused`,
// the number and the node.
#![tactic(auto)]

use inputs::read_full;
use std::io;

fn main(rt: HostRuntime) -> io::Result<()> {
    // longer than any table, which has at most 899 bytes: of a longer input the part that is read is too long as well
    let mut buffer = [0u8; 4096];
    let table = read_full(&mut rt.stdin(), &mut buffer)?;
    let mut line = [0u8; 64];
    let length = engine::lenscheck_line(table, &mut line);
    rt.write_all(&line[..length])
}
