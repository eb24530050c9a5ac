// What every call does: it checks the program in a lent slice, asks the root's languages, and answers a result with its length, or a refusal.
#![tactic(auto)]

ghost use Rattle.std.specs.Prelude.{◌≡◌, ◌≤◌, length};
ghost use Rattle.std.proofs.Math.Option.{none};
ghost use Rattle.semantics.specs.Table.{first_that_holds};
ghost use Rattle.table.specs.Prepared.{table_lines};
ghost use Rattle.table.specs.Rules.{AllSized};
ghost use Rattle.answers.specs.declared.Hindrance.TheVariants.{Refused};
ghost use Rattle.answers.specs.Answers.{CheckedIs};

use builder::program::{build_all, rows_needed};
use table::{Refusal, Table};
use typing::round::second_round;

pub mod results;

// What a call that gives a text answers: the length of its result, or the refusal.
pub type Answer = Result<usize, Refusal>;

// The sheet entries of a put that took an old entry, those that did not, and the old entries left unused.
#[derive(Clone, Copy, Default)]
pub struct Tally {
    pub kept: usize,
    pub made: usize,
    pub dropped: usize,
}

// The source that a put gives: its length, and its tally.
#[derive(Clone, Copy)]
pub struct Sourced {
    pub length: usize,
    pub tally: Tally,
}

// What a put answers.
pub type PutAnswer = Result<Sourced, Refusal>;

// A clash: the number and the node of its rule, the length of the text that shows it, and its two ends, or a union's two children.
#[derive(Clone, Copy)]
pub struct Clash {
    pub number: usize,
    pub node: usize,
    pub length: usize,
    pub first: usize,
    pub second: usize,
}

// What Clash answers: a clash, or that none exists; or the refusal.
pub type ClashAnswer = Result<Option<Clash>, Refusal>;

// What a call came to: its answer and, where a put has a result, its tally; and the answer of Clash.
#[derive(Clone, Copy)]
pub struct Reply {
    pub answer: Answer,
    pub tally: Tally,
    pub clash: ClashAnswer,
}

// Why a program is not ready in a lent slice: it is refused, or the slice has no room for its automata.
#[derive(Clone, Copy)]
pub enum Hindrance {
    Refused(Refusal),
    Small,
}

impl From<Refusal> for Hindrance {
    ghost from_gives = { λ refusal hindrance. hindrance ≡ Refused refusal };

    fn from(refusal: Refusal) -> Hindrance {
        Hindrance::Refused(refusal)
    }
}

// Checks a program, and prepares it in the slice that is lent.
pub fn check_in(bytes: &[u8], prepared: &mut [u64]) -> Result<(), Hindrance>
    requires { 1536 ≤ length prepared.old }
    ensures { CheckedIs bytes.now result prepared.new }
{
    // read for its refusal, and for the sizes that it leaves in the slice
    let _table = Table::read(bytes, prepared)?;
    build_in(bytes, prepared)
}

// The automata and the second round, of a table whose first round passed.
fn build_in(bytes: &[u8], prepared: &mut [u64]) -> Result<(), Hindrance>
    requires all_sized { AllSized bytes.now prepared.old }
    requires bytes_value { first_that_holds (table_lines bytes.now) ≡ none }
    ensures { CheckedIs bytes.now result prepared.new }
{
    let rows = rows_needed(bytes, prepared);
    if prepared.len() < Table::ROWS + 3 * rows {
        return Err(Hindrance::Small);
    }
    build_all(bytes, prepared);
    second_round(bytes, prepared).map_err(Hindrance::from)
}
