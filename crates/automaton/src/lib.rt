// The position automata of a program's nodes, in the prepared program. Only the functions of this crate, which read it, and
// those of `builder`, which write it, know where its numbers stand.
#![tactic(auto)]

ghost use Rattle.std.specs.Prelude.{◌≡◌, ◌+◌, ◌*◌, ◌≤◌, ◌<◌, length};
ghost use Rattle.automaton.specs.Rows.{row_at, follow_of, class_at, RowRoom, stands_in, share_in, stands_or_none, FirstShared, alike_in, automaton_at};

use classes::Class;
use positions::Set;
use table::Table;

#[derive(Clone, Copy)]
pub enum Side {
    Source,
    Sheet,
}

// An automaton by value: where its rows start, how many positions it has, whether the empty text belongs, and where texts begin and end.
#[derive(Clone, Copy)]
pub struct Automaton {
    pub start: usize,
    pub count: usize,
    pub nullable: bool,
    pub first: Set,
    pub last: Set,
}

pub fn side_index(side: Side) -> usize
    ensures { (result ≡ Rattle.automaton.specs.Rows.side_index side) × (result < 2) }
{
    match side {
        Side::Source => 0,
        Side::Sheet => 1,
    }
}

pub fn set_at(prepared: &[u64], i: usize) -> Set
    requires { i + 1 < length prepared.now }
    ensures { result ≡ Rattle.automaton.specs.Rows.set_at prepared.now i }
{
    Set {
        low: prepared[i],
        high: prepared[i + 1],
    }
}

pub fn automaton_of(prepared: &[u64], node: usize, side: Side) -> Automaton
    requires { 16 * node + 16 ≤ length prepared.now }
    ensures { result ≡ automaton_at prepared.now node side }
{
    let s = side_index(side);
    let i = Table::WORDS * node + 4 + 6 * s;
    Automaton {
        start: prepared[i] as usize,
        count: prepared[Table::WORDS * node + 1 + s] as usize,
        nullable: prepared[i + 1] == 1,
        first: set_at(prepared, i + 2),
        last: set_at(prepared, i + 4),
    }
}

// The positions that may follow the position of a row.
pub fn follow(prepared: &[u64], row: usize) -> Set
    requires { row_at (row + 1) ≤ length prepared.now }
    ensures { result ≡ follow_of prepared.now row }
{
    set_at(prepared, Table::ROWS + 3 * row + 1)
}

// Four numbers, from a place on, as a class.
fn class_at(prepared: &[u64], i: usize) -> Class
    requires { i + 4 ≤ length prepared.now }
    ensures { result ≡ class_at prepared.now i }
{
    Class {
        low: set_at(prepared, i),
        high: set_at(prepared, i + 2),
    }
}

// Whether a byte may stand at the position of a row, by the one number of its class that has the byte's bit.
pub fn stands(prepared: &[u64], row: usize, byte: u8) -> bool
    requires { RowRoom prepared.now row }
    ensures { result ≡ stands_in prepared.now row byte }
{
    let held = prepared[Table::ROWS + 3 * row];
    if held < 256 {
        return held == byte as u64;
    }
    let b = byte as usize;
    (prepared[held as usize + b / 64] >> (b % 64)) % 2 == 1
}

// Whether the positions of two rows share a byte.
pub fn share(prepared: &[u64], row: usize, other: usize) -> bool
    requires row_room { RowRoom prepared.now row }
    requires row_room_2 { RowRoom prepared.now other }
    ensures { result ≡ share_in prepared.now row other }
{
    let a = prepared[Table::ROWS + 3 * row];
    let b = prepared[Table::ROWS + 3 * other];
    if a < 256 {
        return stands(prepared, other, a as u8);
    }
    if b < 256 {
        return stands(prepared, row, b as u8);
    }
    let class = class_at(prepared, a as usize);
    class.meets(class_at(prepared, b as usize))
}

// A byte, if it may stand at the position of a row, else 256.
fn stands_or_none(prepared: &[u64], row: usize, byte: u8) -> usize
    requires { RowRoom prepared.now row }
    ensures { result ≡ stands_or_none prepared.now row byte }
{
    if stands(prepared, row, byte) {
        return byte as usize;
    }
    256
}

// The lowest byte that the positions of two rows share; 256 or more if there is none.
// Kept by hand: the crates above cite the promise `FirstShared`, which speaks of such a number and no Option.
pub fn first_shared(prepared: &[u64], row: usize, other: usize) -> usize
    requires row_room { RowRoom prepared.now row }
    requires row_room_2 { RowRoom prepared.now other }
    ensures { FirstShared prepared.now row other result }
{
    let a = prepared[Table::ROWS + 3 * row];
    let b = prepared[Table::ROWS + 3 * other];
    if a < 256 {
        return stands_or_none(prepared, other, a as u8);
    }
    if b < 256 {
        return stands_or_none(prepared, row, b as u8);
    }
    let class = class_at(prepared, a as usize);
    class.first_shared(class_at(prepared, b as usize))
}

// Whether the positions of two rows hold the same byte or refer to the same class. Then the same bytes may stand at them.
pub fn alike(prepared: &[u64], row: usize, other: usize) -> bool
    requires row_in_bounds { row_at (row + 1) ≤ length prepared.now }
    requires other_in_bounds { row_at (other + 1) ≤ length prepared.now }
    ensures { result ≡ alike_in prepared.now row other }
{
    prepared[Table::ROWS + 3 * row] == prepared[Table::ROWS + 3 * other]
}
