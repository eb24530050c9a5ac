// Questions on the languages of two automata: whether some text belongs to both, and whether some text has two cuts.
ghost use Rattle.std.specs.Prelude.{◌≡◌, true, ◌↔◌};
ghost use Rattle.semantics.specs.Pattern.{Pattern};
ghost use Rattle.semantics.specs.Ambiguity.{Overlap, TwoCuts};
ghost use Rattle.automaton.specs.Rows.{Room, Describes};
ghost use Rattle.typing.specs.Stages.{Within, StartOnly, NextOf, SomeFinal, StagedBy};

use automaton::Automaton;
use positions::Set;

// States of an automaton: whether its start is among them, and which positions are.
#[derive(Clone, Copy)]
pub struct Marked {
    pub start: bool,
    pub at: Set,
}

// The words of a set of pairs: a row of two for each position.
const WORDS: usize = 2 * Set::SIZE;

// Room for the pairs of two automata: which positions share a byte, the pairs that were led on, and those that are reached.
#[derive(Drop)]
pub struct Rooms {
    pub shares: [u64; WORDS],
    pub led: [u64; WORDS],
    pub cells: [u64; WORDS],
}

// The positions that may come next from a marked state.
fn next(prepared: &[u64], a: Automaton, marked: Marked) -> Set
    requires { Room a prepared.now }
    ensures { NextOf prepared.now a marked result }
{
    let next = pairs::followers(prepared, a, marked.at);
    pairs::joined_if(next, a.first, marked.start)
}

// Whether a marked state is final.
fn some_final(a: Automaton, marked: Marked) -> bool
    ensures { (result ≡ true) ↔ SomeFinal a marked }
{
    (marked.start && a.nullable) || marked.at.meets(a.last)
}

// The states to which some text leads the second automaton from its start, and the first from a marked state to a final one.
fn stage(prepared: &[u64], a: Automaton, b: Automaton, marked: Marked, rooms: &mut Rooms) -> Marked
    requires room { (Room a prepared.now) × (Room b prepared.now) }
    requires within { Within a marked }
    ensures { StagedBy prepared.now a b marked result }
{
    let begun = next(prepared, a, marked);
    pairs::fill(
        prepared,
        a,
        b,
        begun,
        &mut rooms.shares,
        &mut rooms.led,
        &mut rooms.cells,
    );
    Marked {
        start: some_final(a, marked),
        at: pairs::rows(&rooms.cells, a.count, a.last),
    }
}

// The start alone.
fn begin() -> Marked
    ensures { StartOnly result }
{
    Marked {
        start: true,
        at: Set::empty(),
    }
}

// Whether some text belongs to both languages.
pub fn overlap(prepared: &[u64], a: Automaton, b: Automaton, rooms: &mut Rooms) -> bool
    requires room { Room a prepared.now }
    requires room_2 { Room b prepared.now }
    ensures { (r s : Pattern) → Describes r a prepared.now → Describes s b prepared.now → (result ≡ true) ↔ Overlap r s }
{
    let both = stage(prepared, a, b, begin(), rooms);
    some_final(b, both)
}

// Whether some text has two cuts into a text of the first language and a text of the second.
pub fn two_cuts(prepared: &[u64], a: Automaton, b: Automaton, rooms: &mut Rooms) -> bool
    requires room { Room a prepared.now }
    requires room_2 { Room b prepared.now }
    ensures { (r s : Pattern) → Describes r a prepared.now → Describes s b prepared.now → (result ≡ true) ↔ TwoCuts r s }
{
    let first = stage(prepared, a, a, begin(), rooms);
    let second = stage(prepared, a, b, first, rooms);
    let moved = Marked {
        start: false,
        ..second
    };
    let third = stage(prepared, b, b, moved, rooms);
    some_final(b, third)
}
