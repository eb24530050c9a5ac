// What the line of `lenscheck` takes of an accepted and prepared program.
ghost use Rattle.std.specs.Prelude.{length};
ghost use Rattle.answers.specs.Answers.{Ready};
ghost use Rattle.answers.specs.Outcomes.{GivesText};
ghost use Rattle.readings.specs.Line.{line_call};

use answers::Answer;
use answers::results::give;
use arrays::filled;
use lines::put_accepted;
use table::Table;
use table::parts::node_count;

// The line of an accepted and prepared program, whose root is the last node.
pub fn line_with(bytes: &[u8], prepared: &[u64], out: &mut [u8]) -> Answer
    requires { Ready bytes.now prepared.now }
    ensures { GivesText (line_call bytes.now (length out.old)) out.old out.new result }
{
    let count = node_count(bytes);
    let root = Table::node(bytes, prepared, count - 1);
    let mut line: [u8; 66] = filled(0);
    let length = put_accepted(count, root.source, root.sheet, &mut line);
    give(&line[..length], out)
}
