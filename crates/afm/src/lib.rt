// Document 02 (v): Adobe's metrics in and out. `import` gives the sheet lines of a kerning section, `export` the section of sheet lines. Each goes over the lent text
// twice: first it checks every line, counts the pairs and adds up what their lines will take, and then, with nothing left to refuse, it writes.
#![tactic(auto)]

ghost use Rattle.std.specs.Prelude.{◌≡◌};
ghost use Rattle.table.specs.Prepared.{refusal};

use table::Refusal;

pub mod export;
pub mod import;
mod pair_lines;
mod section;

// The longest text that is read or given.
const TEXT: usize = 65535;

// Why a line that is not of its form is refused: by its number from 1.
fn refuse_line(line: usize) -> Refusal
    ensures { result ≡ refusal 18 line }
{
    Refusal {
        number: 18,
        node: line,
    }
}
