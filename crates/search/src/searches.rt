// What is searched for, and how its pairs lead to each other.
ghost use Rattle.std.specs.Prelude.{◌≡◌, ◌≤◌, ◌<◌, length};
ghost use Rattle.search.specs.Pairs.{before_of, linked_of};

use crate::patches::{Patch, Quest, before};
use automaton::set_at;

// A quest, and for each position those that it may follow: the part's, from 128 on the whole's, from 256 on the rest's.
#[derive(Clone, Copy)]
pub struct Search<'a> {
    pub quest: &'a Quest,
    pub leads: &'a [u64],
    pub ghost fits: { (length leads.now ≡ 768) × (quest.now.part.count ≤ 128) },
}

impl Search<'_> {
    // The pairs of its own kind that may come before a pair.
    pub fn before(self, row: usize, column: usize) -> Patch
        requires { (row < 256) × (column < 128) }
        ensures { result ≡ before_of self.entry.leads.now row column }
    {
        before(self.leads, row, column)
    }

    // The early pairs that may come before a late one.
    pub fn linked(self, row: usize, column: usize) -> Patch
        requires { row < 256 }
        ensures { result ≡ linked_of self.entry.quest.now self.entry.leads.now row column }
    {
        if row < 128 || 128 + self.quest.part.count <= row || !self.quest.first.has(column) {
            return Patch::empty();
        }
        Patch {
            base: 0,
            rows: self.quest.last,
            columns: set_at(self.leads, 2 * (row - 128)),
        }
    }
}
