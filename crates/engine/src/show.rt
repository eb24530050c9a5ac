// The call Clash: why a program is refused with 7 to 11.
ghost use Rattle.std.specs.Prelude.{length};
ghost use Rattle.clash.specs.Clash.{clash_call};
ghost use Rattle.answers.specs.Outcomes.{GivesClash};

use crate::rooms::{Call, answer_in};
use answers::ClashAnswer;

pub fn clash(bytes: &[u8], out: &mut [u8]) -> ClashAnswer
    ensures { GivesClash (clash_call bytes.now (length out.old)) out.old out.new result }
{
    answer_in(Call::Clash, bytes, &[], &[], out).clash
}
