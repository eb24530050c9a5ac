// The call Get: a sheet from a source.
ghost use Rattle.std.specs.Prelude.{length};
ghost use Rattle.semantics.specs.Calls.{get_call};
ghost use Rattle.answers.specs.Outcomes.{GivesText};

use crate::rooms::{Call, answer_in};
use answers::Answer;

pub fn get(bytes: &[u8], source: &[u8], out: &mut [u8]) -> Answer
    ensures { GivesText (get_call bytes.now source.now (length out.old)) out.old out.new result }
{
    answer_in(Call::Get, bytes, &[], source, out).answer
}
