// The call Put: a source from a sheet and an old source, and the tally of it.
ghost use Rattle.std.specs.Prelude.{length};
ghost use Rattle.semantics.specs.Calls.{put_call};
ghost use Rattle.semantics.specs.Tally.{put_tally};
ghost use Rattle.answers.specs.Outcomes.{GivesSource};

use crate::rooms::{Call, answer_in};
use answers::PutAnswer;
use answers::results::with_tally;

pub fn put(bytes: &[u8], sheet: &[u8], source: &[u8], out: &mut [u8]) -> PutAnswer
    ensures { GivesSource (put_call bytes.now sheet.now source.now (length out.old)) (put_tally bytes.now sheet.now source.now) out.old out.new result }
{
    with_tally(answer_in(Call::Put, bytes, sheet, source, out))
}
