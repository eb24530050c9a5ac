// The calls of the sheet engine. Each checks the program itself.
#![tactic(auto)]

ghost use Rattle.std.specs.Prelude.{◌≡◌, ◌++◌, ℕ, ◌≤◌, length, drop};
ghost use Rattle.semantics.specs.Calls.{check_call, lenscheck_line};
ghost use Rattle.answers.specs.Outcomes.{answer_for};

use answers::Answer;
use lines::put_refused;
use rooms::{Call, answer_in};

pub mod create;
pub mod get;
pub mod put;
mod rooms;
pub mod show;

// The call Check.
pub fn check(bytes: &[u8]) -> Answer
    ensures { result ≡ answer_for (λ (n : ℕ). n) (check_call bytes.now) }
{
    answer_in(Call::Check, bytes, &[], &[], &mut []).answer
}

// The line that `lenscheck` prints, at the start of a buffer, and its length.
pub fn lenscheck_line(bytes: &[u8], out: &mut [u8]) -> usize
    requires { 64 ≤ length out.old }
    ensures leaves { out.new ≡ lenscheck_line bytes.now ++ drop (length (lenscheck_line bytes.now)) out.old }
    ensures answers { result ≡ length (lenscheck_line bytes.now) }
    ensures short { result ≤ 64 }
{
    match answer_in(Call::Line, bytes, &[], &[], out).answer {
        Ok(length) => length,
        Err(refusal) => put_refused(refusal.number, refusal.node, out),
    }
}
