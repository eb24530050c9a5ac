// Rows and headers of automata, written and copied.
ghost use Rattle.std.specs.Prelude.{◌≡◌, ◌&&◌, ℕ, ◌+◌, ◌*◌, ◌≤◌, ◌<◌, eqb, ltb, length};
ghost use Rattle.positions.specs.Positions.{holds};
ghost use Rattle.automaton.specs.Rows.{row_at};
ghost use Rattle.builder.specs.Build.{ClassPut, RowPut, HeaderPut, RowCopied, Kept, Copied};

use automaton::{Side, follow, side_index};
use classes::Class;
use positions::Set;
use table::Table;

// A class, from a place on.
pub fn put_class(prepared: &mut [u64], i: usize, class: Class)
    requires { i + 4 ≤ length prepared.old }
    ensures { ClassPut i class prepared.old prepared.new }
{
    let Class { low, high } = class;
    prepared[i..i + 4].copy_from_slice(&[low.low, low.high, high.low, high.high]);
}

// A row: the number that tells its bytes, and the positions that may follow.
pub fn put_row(prepared: &mut [u64], row: usize, held: u64, follow: Set)
    requires { row_at (row + 1) ≤ length prepared.old }
    ensures { RowPut row held follow prepared.old prepared.new }
{
    let i = Table::ROWS + 3 * row;
    prepared[i..i + 3].copy_from_slice(&[held, follow.low, follow.high]);
}

pub fn put_header(
    prepared: &mut [u64],
    node: usize,
    side: Side,
    start: usize,
    nullable: bool,
    first: Set,
    last: Set,
)
    requires { 16 * node + 16 ≤ length prepared.old }
    ensures { HeaderPut node side start nullable first last prepared.old prepared.new }
{
    let i = Table::WORDS * node + 4 + 6 * side_index(side);
    prepared[i..i + 6].copy_from_slice(&[
        start as u64,
        u64::from(nullable),
        first.low,
        first.high,
        last.low,
        last.high,
    ]);
}

// The set, or none of it.
pub fn only_if(test: bool, set: Set) -> Set
    ensures { (q : ℕ) → holds result q ≡ (test && holds set q) }
{
    if test { set } else { Set::empty() }
}

// The set of p, if it is below count.
pub fn single(p: usize, count: usize) -> Set
    requires { count ≤ 128 }
    ensures { (q : ℕ) → holds result q ≡ (eqb q p && ltb q count) }
{
    if p < count {
        Set::empty().with(p)
    } else {
        Set::empty()
    }
}

// A row copied, its positions moved up, with more that may follow.
fn copy_row(prepared: &mut [u64], from: usize, to: usize, up: usize, more: Set)
    requires { (from < to) × (row_at (to + 1) ≤ length prepared.old) }
    ensures row_copied { RowCopied from to up (holds more) prepared.old prepared.new }
    ensures kept { Kept (row_at to) (row_at (to + 1)) prepared.old prepared.new }
{
    let held = prepared[Table::ROWS + 3 * from];
    let next = follow(prepared, from).moved(up).union(more);
    put_row(prepared, to, held, next);
}

// The rows of an automaton copied, its positions moved up. Those in `last` may be followed by `more` too.
pub fn copy_rows(
    prepared: &mut [u64],
    from: usize,
    to: usize,
    count: usize,
    up: usize,
    last: Set,
    more: Set,
)
    requires { (from + count ≤ to) × (row_at (to + count) ≤ length prepared.old) }
    ensures { Copied from to count up last more prepared.old prepared.new }
{
    for p in 0..count {
        let gained = only_if(last.has(p), more);
        copy_row(prepared, from + p, to + p, up, gained);
    }
}
