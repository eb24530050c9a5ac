// Pairs of positions, in patches: some rows, and in each of them some columns.
ghost use Rattle.std.specs.Prelude.{◌≡◌, ◌<◌, length};
ghost use Rattle.search.specs.Pairs.{in_patch, no_patch, begins_in, before_of};

use automaton::{Automaton, set_at};
use positions::Set;

// The pairs with a row of `rows`, counted from `base`, and a column of `columns`.
#[derive(Clone, Copy)]
pub struct Patch {
    pub base: usize,
    pub rows: Set,
    pub columns: Set,
}

// What is searched for: the automata of the part, the whole and the rest; the pairs by which a text begins, and those at which it ends; and how early pairs
// lead to late ones: the first reading has come to one of `last`, the second goes on in the part, and the rest begins at one of `first`.
#[derive(Clone, Copy)]
pub struct Quest {
    pub part: Automaton,
    pub whole: Automaton,
    pub rest: Automaton,
    pub last: Set,
    pub first: Set,
    pub early: Patch,
    pub late: Patch,
    pub goal: Patch,
}

impl Patch {
    // No pairs. Kept by hand: the definition `no_set` names this value, and `Set::empty` promises only that nothing is held.
    pub(crate) fn empty() -> Patch
        ensures { result ≡ no_patch }
    {
        Patch {
            base: 0,
            rows: Set { low: 0, high: 0 },
            columns: Set { low: 0, high: 0 },
        }
    }

    // Whether a pair is in the patch.
    pub fn has(self, row: usize, column: usize) -> bool
        ensures { result ≡ in_patch self row column }
    {
        self.base <= row && self.rows.has(row - self.base) && self.columns.has(column)
    }
}

impl Quest {
    // Whether a text begins by a pair.
    pub fn begins(&self, pair: usize) -> bool
        ensures { result ≡ begins_in self.now pair }
    {
        let row = pair / 128;
        let column = pair % 128;
        self.early.has(row, column) || self.late.has(row, column)
    }
}

// The pairs of its own kind that may come before a pair, whatever the quest. `leads` has for each position those that it may follow: the part's, from 128 on
// the whole's, from 256 on the rest's.
pub fn before(leads: &[u64], row: usize, column: usize) -> Patch
    requires { (length leads.now ≡ 768) × (row < 256) × (column < 128) }
    ensures { result ≡ before_of leads.now row column }
{
    let rows = set_at(leads, 2 * row);
    if row < 128 {
        return Patch {
            base: 0,
            rows,
            columns: set_at(leads, 2 * column),
        };
    }
    Patch {
        base: 128,
        rows,
        columns: set_at(leads, 2 * (256 + column)),
    }
}
