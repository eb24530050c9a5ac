// The line that the program `tally` prints, put into a buffer: the counts of a put, or its refusal.
#![tactic(auto)]

ghost use Rattle.std.specs.Prelude.{◌≡◌, ◌++◌, ◌≤◌, length, drop};
ghost use Rattle.semantics.specs.Tally.{tally_line};

use arrays::filled;
use engine::put::put;
use lines::{put_counts, put_refused};
use table::Table;

// The line for a table, a sheet and a source, at the start of a buffer, and its length.
pub fn tally_line(table: &[u8], sheet: &[u8], source: &[u8], out: &mut [u8]) -> usize
    requires { 81 ≤ length out.old }
    ensures leaves { out.new ≡ tally_line table.now sheet.now source.now ++ drop (length (tally_line table.now sheet.now source.now)) out.old }
    ensures answers { result ≡ length (tally_line table.now sheet.now source.now) }
    ensures short { result ≤ 81 }
{
    let mut result: [u8; Table::TEXT] = filled(0);
    match put(table, sheet, source, &mut result) {
        Ok(made) => {
            let tally = made.tally;
            put_counts(tally.kept, tally.made, tally.dropped, out)
        }
        Err(refusal) => put_refused(refusal.number, refusal.node, out),
    }
}
