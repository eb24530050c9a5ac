// The pairs of positions of two automata that one text leads to, filled until no row is due, and which positions share a byte. Pairs stand in cells: a
// row for each position of the first, with the set of the second's positions. Each is led on once by one byte: `led` has those that were.
#![tactic(auto)]

ghost use Rattle.std.specs.Prelude.{◌≡◌, ◌&&◌, ◌||◌, ℕ, ◌+◌, ◌*◌, ◌≤◌, ◌<◌, eqb, length, set, get_or};
ghost use Rattle.std.specs.Int.Bits.{bit_or};
ghost use Rattle.positions.specs.Positions.{holds};
ghost use Rattle.automaton.specs.Rows.{row_at, RowRoom, Room};
ghost use Rattle.pairs.specs.Pairs.{Gathered, by_follow, by_sharing, same_as_last, by_row, row_of, Change, Gained, Shares, Poured, PouredAt, Spread, NextDue, Blank, Filled};

use automaton::{Automaton, set_at};
use language::keep;
use positions::Set;

// A set, joined with another if a test is true.
pub fn joined_if(set: Set, other: Set, test: bool) -> Set
    ensures { (q : ℕ) → holds result q ≡ (test && holds other q || holds set q) }
{
    if test {
        return other.union(set);
    }
    set
}

// The positions that may follow one of a set.
pub fn followers(prepared: &[u64], a: Automaton, set: Set) -> Set
    requires { Room a prepared.now }
    ensures { Gathered a.count (by_follow prepared.now a.start set) result }
{
    let mut out = Set::empty();
    for p in set.below(a.count) {
        out = automaton::follow(prepared, a.start + p).union(out);
    }
    out
}

// The positions that share a byte with the position of a row.
pub fn sharing(prepared: &[u64], row: usize, b: Automaton) -> Set
    requires row_room { RowRoom prepared.now row }
    requires room { Room b prepared.now }
    ensures { Gathered b.count (by_sharing prepared.now row b.start) result }
{
    let mut out = Set::empty();
    for p in 0..b.count {
        if automaton::share(prepared, row, b.start + p) {
            out = out.with(p);
        }
    }
    out
}

// The first count rows lose their pairs. The others are not asked for.
fn clear(cells: &mut [u64], count: usize)
    requires { (count ≤ 128) × (length cells.old ≡ 256) }
    ensures { Blank count cells.new }
{
    cells[..2 * count].fill(0);
}

// Row x of the cells: the positions of the second automaton that make a pair with position x of the first.
fn row(cells: &[u64], x: usize) -> Set
    requires { 2 * x + 1 < length cells.now }
    ensures { result ≡ row_of cells.now x }
{
    set_at(cells, 2 * x)
}

// The union of the rows of a set.
pub fn rows(cells: &[u64], count: usize, set: Set) -> Set
    requires { 2 * count ≤ length cells.now }
    ensures { Gathered count (by_row cells.now set) result }
{
    let mut out = Set::empty();
    for x in set.below(count) {
        out = row(cells, x).union(out);
    }
    out
}

// One word gains bits. Whether it changed.
fn gain_word(cells: &mut [u64], i: usize, bits: u64) -> bool
    requires { i < length cells.old }
    ensures { (cells.new ≡ set cells.old i (bit_or (get_or cells.old i 0) bits)) × Change cells.old cells.new result }
{
    let old = cells[i];
    let new = old | bits;
    cells[i] = new;
    new != old
}

// Row x gains a set. Whether it changed.
fn gain(cells: &mut [u64], x: usize, set: Set) -> bool
    requires { 2 * x + 1 < length cells.old }
    ensures { Gained x set cells.old cells.new result }
{
    let low = gain_word(cells, 2 * x, set.low);
    let high = gain_word(cells, 2 * x + 1, set.high);
    low | high
}

// Whether position x has the same bytes as the one before it.
fn same_as_last(prepared: &[u64], start: usize, x: usize) -> bool
    requires { row_at (start + x + 1) ≤ length prepared.now }
    ensures { result ≡ same_as_last prepared.now start x }
{
    match x.checked_sub(1) {
        Some(before) => automaton::alike(prepared, start + before, start + x),
        None => false,
    }
}

// The positions that share a byte with position x, once the rows before it are known. In a run of positions with the same bytes all have the same, so
// that long runs, of which the slowest tables are made, are compared once.
fn share_row(prepared: &[u64], start: usize, x: usize, b: Automaton, shares: &[u64]) -> Set
    requires x_bound { (x < 128) × RowRoom prepared.now (start + x) }
    requires room { Room b prepared.now }
    requires shares { Shares prepared.now start b x shares.now }
    ensures { Gathered b.count (by_sharing prepared.now (start + x) b.start) result }
{
    if same_as_last(prepared, start, x) {
        return row(shares, x - 1);
    }
    sharing(prepared, start + x, b)
}

// All pairs of positions that share a byte. No other function compares bytes, so that a pair is compared once a stage.
fn share_rows(prepared: &[u64], a: Automaton, b: Automaton, shares: &mut [u64])
    requires room { (Room a prepared.now) × (Room b prepared.now) }
    requires shares_len { length shares.old ≡ 256 }
    ensures { Shares prepared.now a.start b a.count shares.new }
{
    for x in 0..a.count {
        let found = share_row(prepared, a.start, x, b, shares);
        keep(shares, x, found);
    }
}

// Row x gains the positions of ys that share a byte with x. The rows that are due, with x if it gained one.
fn pour_at(shares: &[u64], ys: Set, x: usize, due: Set, cells: &mut [u64]) -> Set
    requires { (x < 128) × (length shares.now ≡ 256) × (length cells.old ≡ 256) }
    ensures { PouredAt shares.now ys x cells.old cells.new due result }
{
    let found = ys.intersect(row(shares, x)).minus(row(cells, x));
    if found.is_empty() {
        return due;
    }
    gain(cells, x, found);
    due.with(x)
}

// The rows of xs gain the positions of ys that share a byte with theirs. The rows that are due, with those that gained one.
fn pour(count: usize, shares: &[u64], xs: Set, ys: Set, due: Set, cells: &mut [u64]) -> Set
    requires { (count ≤ 128) × (length shares.now ≡ 256) × (length cells.old ≡ 256) }
    ensures { Poured shares.now xs ys 0 count cells.old cells.new due result }
{
    let mut now_due = due;
    for x in xs.below(count) {
        now_due = pour_at(shares, ys, x, now_due, cells);
    }
    now_due
}

// The pairs of row x that have not been led on are led on by one byte. The rows that are due then.
fn spread(
    prepared: &[u64],
    a: Automaton,
    b: Automaton,
    shares: &[u64],
    x: usize,
    due: Set,
    led: &mut [u64],
    cells: &mut [u64],
) -> Set
    requires room { (Room a prepared.now) × (Room b prepared.now) }
    requires shares { Shares prepared.now a.start b a.count shares.now }
    requires x_lt_count { (x < a.count) × (length led.old ≡ 256) × (length cells.old ≡ 256) }
    ensures { Spread prepared.now a b x led.old led.new cells.old cells.new due result }
{
    let fresh = row(cells, x).minus(row(led, x));
    gain(led, x, fresh);
    let xs = automaton::follow(prepared, a.start + x);
    let ys = followers(prepared, b, fresh);
    pour(a.count, shares, xs, ys, due.without(x), cells)
}

// The first due row from x on, else the first of all, if any is due.
fn next_due(due: Set, x: usize) -> Option<usize>
    ensures { NextDue due result }
{
    let next = due.first_from(x);
    if next < Set::SIZE {
        return Some(next);
    }
    let first = due.first_from(0);
    if first < Set::SIZE {
        return Some(first);
    }
    None
}

// All pairs that are reached from positions of the first and the start of the second; where none has begun there are none, and no bytes are compared.
// The work grows at most as the cube of the positions: a pair is led on once, when it goes from cells to led. A row is visited only if it has a pair
// that was not led on, so at most as often as there are pairs, each time with a set operation for each position of the two automata at most.
// The arrays are lent, so that a question makes them once, and what they hold at first does not matter.
pub fn fill(
    prepared: &[u64],
    a: Automaton,
    b: Automaton,
    begun: Set,
    shares: &mut [u64],
    led: &mut [u64],
    cells: &mut [u64],
)
    requires room { (Room a prepared.now) × (Room b prepared.now) }
    requires shares_len { (length shares.old ≡ 256) × (length led.old ≡ 256) × (length cells.old ≡ 256) }
    ensures { Filled prepared.now a b begun cells.new }
{
    clear(cells, a.count);
    if begun.is_empty() {
        return;
    }
    clear(led, a.count);
    share_rows(prepared, a, b, shares);
    let mut due = pour(a.count, shares, begun, b.first, Set::empty(), cells);
    let mut next = next_due(due, 0);
    while let Some(x) = next {
        due = spread(prepared, a, b, shares, x, due, led, cells);
        next = next_due(due, x);
    }
}
