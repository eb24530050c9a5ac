// Pairs in the order in which they are found. A pair is a number, 128 times its row and its column; a pair that is found is no longer fresh.
ghost use Rattle.std.specs.Prelude.{◌≡◌, true, ◌+◌, ◌*◌, ◌/◌, ◌≤◌, ◌<◌, length};
ghost use Rattle.search.specs.Pairs.{held_in, pair_in, PatchFits};
ghost use Rattle.search.specs.Queue.{Queue, Found, OfRow, Before, BeforeOne};

use crate::patches::Patch;
use crate::searches::Search;
use automaton::set_at;
use language::keep;
use positions::Set;

// A fresh pair is found.
// Kept by hand: the order and what is fresh are lent, each call by its own room; a struct of two `&mut` would have to say in every clause that it still holds them.
fn push(order: &mut [u16], fresh: &mut [u64], count: usize, row: usize, column: usize)
    requires queue { Queue order.old fresh.old count }
    requires row_bound { (row < 256) × (column < 128) × (held_in fresh.old 0 (128 * row + column) ≡ true) }
    ensures { Found (λ pair. pair ≡ 128 * row + column) order.old fresh.old count order.new fresh.new (count + 1) }
{
    let left = set_at(fresh, 2 * row);
    keep(fresh, row, left.without(column));
    order[count] = (128 * row + column) as u16;
}

// The fresh pairs of a row that have these columns are found. How many have been found then.
fn take_row(order: &mut [u16], fresh: &mut [u64], count: usize, row: usize, columns: Set) -> usize
    requires queue { Queue order.old fresh.old count }
    requires row_bound { row < 256 }
    ensures { Found (OfRow row columns) order.old fresh.old count order.new fresh.new result }
{
    let found = set_at(fresh, 2 * row).intersect(columns);
    let mut n = count;
    for column in found.below(Set::SIZE) {
        push(order, fresh, n, row, column);
        n += 1;
    }
    n
}

// The fresh pairs of a patch are found.
pub fn take_patch(order: &mut [u16], fresh: &mut [u64], count: usize, patch: Patch) -> usize
    requires queue { Queue order.old fresh.old count }
    requires patch_fits { PatchFits patch }
    ensures { Found (λ pair. pair_in patch pair ≡ true) order.old fresh.old count order.new fresh.new result }
{
    let mut n = count;
    for p in patch.rows.below(Set::SIZE) {
        n = take_row(order, fresh, n, patch.base + p, patch.columns);
    }
    n
}

// The fresh pairs that may come before a pair are found.
fn visit(search: Search, order: &mut [u16], fresh: &mut [u64], count: usize, pair: usize) -> usize
    requires pair_bound { pair < 32768 }
    requires queue { Queue order.old fresh.old count }
    ensures { Found (BeforeOne search.entry.quest.now search.entry.leads.now pair) order.old fresh.old count order.new fresh.new result }
{
    let row = pair / 128;
    let column = pair % 128;
    let n = take_patch(order, fresh, count, search.before(row, column));
    take_patch(order, fresh, n, search.linked(row, column))
}

// The fresh pairs that may come before one of those from `from` to before `to` are found, behind these.
pub fn visit_layer(
    search: Search,
    order: &mut [u16],
    fresh: &mut [u64],
    from: usize,
    to: usize,
) -> usize
    requires ends { from ≤ to }
    requires queue { Queue order.old fresh.old to }
    ensures { Found (Before search.entry.quest.now search.entry.leads.now order.old from to) order.old fresh.old to order.new fresh.new result }
{
    let mut n = to;
    for i in from..to {
        let pair = order[i] as usize;
        n = visit(search, order, fresh, n, pair);
    }
    n
}
