// The automaton of a node, built from those of its parts. The count of its positions stands in the prepared program already.
ghost use Rattle.std.specs.Prelude.{◌≡◌, ◌&&◌, ◌||◌, ℕ, ◌+◌, ◌≤◌, eqb, length};
ghost use Rattle.semantics.specs.Pattern.{word, one_of, concat, alt};
ghost use Rattle.semantics.specs.Table.{runs_of};
ghost use Rattle.positions.specs.Positions.{holds};
ghost use Rattle.automaton.specs.Rows.{row_at};
ghost use Rattle.builder.specs.Build.{Space, Below, BuiltAlone, BuiltRepeat, BuiltPair, Aliased, RowsJoined, Lettered};

use crate::rows::{copy_rows, only_if, put_class, put_header, put_row, single};
use automaton::{Automaton, Side};
use classes::Class;
use positions::Set;
use table::Table;

// Where an automaton is built: a side of a node, and the row from which on it has its rows.
#[derive(Clone, Copy)]
pub struct Slot {
    pub node: usize,
    pub side: Side,
    pub row: usize,
}

// The last of count positions.
fn last_of(count: usize) -> Set
    requires { count ≤ 128 }
    ensures { (q : ℕ) → holds result q ≡ eqb (q + 1) count }
{
    if count == 0 {
        return Set::empty();
    }
    Set::empty().with(count - 1)
}

// A row for each letter, followed by the next one.
fn put_letters(prepared: &mut [u64], row: usize, letters: &[u8])
    requires { (length letters.now ≤ 128) × (row_at (row + length letters.now) ≤ length prepared.old) }
    ensures { Lettered row (length letters.now) letters.now prepared.old prepared.new }
{
    for (p, letter) in letters.iter().enumerate() {
        let next = single(p + 1, letters.len());
        put_row(prepared, row + p, u64::from(*letter), next);
    }
}

pub fn build_word(prepared: &mut [u64], slot: Slot, letters: &[u8])
    requires { Space slot.node slot.row (length letters.now) prepared.old }
    ensures { BuiltAlone (word letters.now) slot.node slot.side slot.row slot.row (length letters.now) prepared.old prepared.new }
{
    let count = letters.len();
    put_letters(prepared, slot.row, letters);
    put_header(
        prepared,
        slot.node,
        slot.side,
        slot.row,
        letters.is_empty(),
        single(0, count),
        last_of(count),
    );
}

// The rows of a range or a set: two that have room for its class, and its own.
pub const CLASS_ROWS: usize = 3;

// A range or a set, from its runs.
pub fn build_class(prepared: &mut [u64], slot: Slot, runs: &[u8])
    requires { Space slot.node slot.row 3 prepared.old }
    ensures { BuiltAlone (one_of (runs_of runs.now)) slot.node slot.side (slot.row + 2) slot.row 3 prepared.old prepared.new }
{
    let at = Table::ROWS + 3 * slot.row;
    let row = slot.row + 2;
    put_class(prepared, at, Class::of(runs));
    put_row(prepared, row, at as u64, Set::empty());
    let zero = single(0, 1);
    put_header(prepared, slot.node, slot.side, row, false, zero, zero);
}

// The rows of both, those of the right behind those of the left. The left ones in `last` may be followed by the first ones of the right.
fn join_rows(prepared: &mut [u64], row: usize, left: Automaton, right: Automaton, last: Set)
    requires count_bound { (left.count + right.count ≤ 128) × (row_at (row + (left.count + right.count)) ≤ length prepared.old) }
    requires below { Below left row }
    requires below_2 { Below right row }
    ensures { RowsJoined row left right last prepared.old prepared.new }
{
    let n = left.count;
    let next = right.first.moved(n);
    let none = Set::empty();
    copy_rows(prepared, left.start, row, n, 0, last, next);
    copy_rows(prepared, right.start, row + n, right.count, n, none, none);
}

pub fn build_concat(prepared: &mut [u64], slot: Slot, left: Automaton, right: Automaton)
    requires space { Space slot.node slot.row (left.count + right.count) prepared.old }
    requires below { Below left slot.row }
    requires below_2 { Below right slot.row }
    ensures { BuiltPair concat slot.node slot.side slot.row left right prepared.old prepared.new }
{
    let n = left.count;
    join_rows(prepared, slot.row, left, right, left.last);
    let nullable = left.nullable && right.nullable;
    let first = left
        .first
        .union(only_if(left.nullable, right.first.moved(n)));
    let last = only_if(right.nullable, left.last).union(right.last.moved(n));
    put_header(
        prepared, slot.node, slot.side, slot.row, nullable, first, last,
    );
}

pub fn build_alt(prepared: &mut [u64], slot: Slot, left: Automaton, right: Automaton)
    requires space { Space slot.node slot.row (left.count + right.count) prepared.old }
    requires below { Below left slot.row }
    requires below_2 { Below right slot.row }
    ensures { BuiltPair alt slot.node slot.side slot.row left right prepared.old prepared.new }
{
    let n = left.count;
    join_rows(prepared, slot.row, left, right, Set::empty());
    let nullable = left.nullable || right.nullable;
    let first = left.first.union(right.first.moved(n));
    let last = left.last.union(right.last.moved(n));
    put_header(
        prepared, slot.node, slot.side, slot.row, nullable, first, last,
    );
}

pub fn build_star(prepared: &mut [u64], slot: Slot, part: Automaton)
    requires space { Space slot.node slot.row part.count prepared.old }
    requires below { Below part slot.row }
    ensures { BuiltRepeat slot.node slot.side slot.row part prepared.old prepared.new }
{
    let first = part.first;
    let last = part.last;
    let n = part.count;
    copy_rows(prepared, part.start, slot.row, n, 0, last, first);
    put_header(prepared, slot.node, slot.side, slot.row, true, first, last);
}

// The node's side has the automaton of another.
pub fn alias(prepared: &mut [u64], node: usize, side: Side, other: Automaton)
    requires { Space node 0 0 prepared.old }
    ensures { Aliased node side other prepared.old prepared.new }
{
    put_header(
        prepared,
        node,
        side,
        other.start,
        other.nullable,
        other.first,
        other.last,
    );
}
