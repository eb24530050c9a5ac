// What is read off the path of a text: where a join is cut, the arm of a union, the parts of a repeat.
#![tactic(auto)]

ghost use Rattle.std.specs.Prelude.{◌≡◌, ◌&&◌, ◌<◌, length};
ghost use Rattle.laws.specs.Paths.{border, goes_left, first_loop};
ghost use Rattle.positions.specs.Positions.{holds, Moved};

use automaton::Automaton;
use positions::Set;

// How many positions at the path's front are below n: where a join is cut.
pub fn border(path: &[u8], n: usize) -> usize
    ensures { result ≡ border n path.now }
{
    path.iter()
        .position(|q| n <= usize::from(*q))
        .unwrap_or(path.len())
}

// Whether the path of a union goes by the left arm, whose positions are those below n; `empty` tells whether that arm holds the empty text.
pub fn goes_left(path: &[u8], n: usize, empty: bool) -> bool
    ensures { result ≡ goes_left n empty path.now }
{
    match path {
        [] => empty,
        [q, ..] => usize::from(*q) < n,
    }
}

// The length of the first part of a repeat: up to the first step from one of its child's last positions to one of the first.
pub fn first_loop(path: &[u8], last: Set, first: Set) -> usize
    requires { 0 < length path.now }
    ensures { result ≡ first_loop (holds last) (holds first) path.now }
{
    for i in 1..path.len() {
        if last.has(usize::from(path[i - 1])) && first.has(usize::from(path[i])) {
            return i;
        }
    }
    path.len()
}

// The positions at which the parts of a repeat end, and those at which they begin.
#[derive(Clone, Copy)]
pub struct Ends {
    pub last: Set,
    pub first: Set,
}

// Those of the automaton of a repeat's child, whose positions are numbered from `base` on.
pub fn ends_of(a: Automaton, base: usize) -> Ends
    ensures { Moved a.last base result.last × Moved a.first base result.first }
{
    Ends {
        last: a.last.moved(base),
        first: a.first.moved(base),
    }
}
