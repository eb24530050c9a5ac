// Runs a script of cases on standard input, and writes the answer of each on a line of its own. The script's first lines say what its words
// mean. The lines that are expected are from the papers, never from this program.
#![tactic(auto)]

mod run;
mod show;

use inputs::read_full;
use std::io;

fn main(rt: HostRuntime) -> io::Result<()> {
    let mut buffer = [0u8; 65536];
    let script = read_full(&mut rt.stdin(), &mut buffer)?;
    run::run(&rt, script)
}
