// Reads the files `table`, `sheet` and `source` of the folder that it is run in, an absent one as an empty one, and prints one line: the entries that a put
// of the sheet on the source keeps, makes and drops; or `refused`, the number and the node. The buffers are far longer than any table or text, so what is left
// out of a file changes no answer: the engine refuses what was read of it as too long.
#![tactic(auto)]

ghost use Rattle.std.specs.Prelude.{◌≤◌, IfSome, length};

use inputs::read_file;
use std::io;
use std::io::ErrorKind;

fn main(rt: HostRuntime) -> io::Result<()> {
    let mut table = [0u8; 65536];
    let Some(table) = read(rt, b"table", &mut table) else {
        return Ok(());
    };
    let mut sheet = [0u8; 65536];
    let Some(sheet) = read(rt, b"sheet", &mut sheet) else {
        return Ok(());
    };
    let mut source = [0u8; 65536];
    let Some(source) = read(rt, b"source", &mut source) else {
        return Ok(());
    };
    let mut line = [0u8; 81];
    let length = tallies::tally_line(table, sheet, source, &mut line);
    rt.write_all(&line[..length])
}

// What a file holds, as far as the buffer goes; or none, and standard error says why. Only a file that is not there counts as empty.
fn read<'a>(rt: HostRuntime, path: &[u8], buffer: &'a mut [u8]) -> Option<&'a [u8]>
    ensures { IfSome result (λ bytes. length bytes.now ≤ length buffer.old) }
{
    read_file(
        &rt,
        &rt.stderr(),
        path,
        buffer,
        |why| why.kind() == ErrorKind::NotFound,
        b"tally: this file cannot be read, so nothing was counted\n",
    )
}
