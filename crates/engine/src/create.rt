// The call Create: a source from a sheet only.
ghost use Rattle.std.specs.Prelude.{length};
ghost use Rattle.semantics.specs.Calls.{create_call};
ghost use Rattle.answers.specs.Outcomes.{GivesText};

use crate::rooms::{Call, answer_in};
use answers::Answer;

pub fn create(bytes: &[u8], sheet: &[u8], out: &mut [u8]) -> Answer
    ensures { GivesText (create_call bytes.now sheet.now (length out.old)) out.old out.new result }
{
    answer_in(Call::Create, bytes, sheet, &[], out).answer
}
