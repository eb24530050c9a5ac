// The steps of a writer: where its texts are cut, the arm of a union, the parts of a repeat, and what is written behind what. All are read off the paths of the sheet and of
// the old source.
#![tactic(auto)]

ghost use Rattle.std.specs.Prelude.{◌≡◌, ◌+◌, ◌*◌, ◌≤◌, length};
ghost use Rattle.automaton.specs.declared.Side.TheVariants.{Source, Sheet};
ghost use Rattle.lens.specs.Emitting.{Prepared};
ghost use Rattle.steps.specs.Steps.{PlaceInside, OldInside, cut_sheet, halves_of, Refitted, created_at, put_at, ChosenNew, Chosen, EndsAre, old_base, next_of, CountsParts};

use automaton::{Side, automaton_of};
use books::{Book, Place};
use cuts::{Ends, border, first_loop, goes_left};
use language::belongs;
use paths::find_path;

// A node, and where its positions begin on the sheet side.
#[derive(Clone, Copy)]
pub struct Spot {
    pub node: usize,
    pub base: usize,
}

// Where a sheet is cut in two, and the nodes of the halves.
#[derive(Clone, Copy)]
pub struct Cut {
    pub at: usize,
    pub left: Spot,
    pub right: Spot,
}

// The old texts onto which the halves of a join are put.
#[derive(Clone, Copy)]
pub struct Halves {
    pub first: Place,
    pub second: Place,
}

// The arm of a union that writes, and the old text onto which it puts.
#[derive(Clone, Copy)]
pub struct Choice {
    pub arm: Spot,
    pub old: Option<Place>,
}

// The old part that is next, and what is left behind it.
#[derive(Clone, Copy)]
pub struct Next {
    pub part: Option<Place>,
    pub rest: Option<Place>,
}

// Where a sheet is cut between two nodes.
pub fn cut_sheet(prepared: &[u64], left: usize, right: usize, base: usize, path: &[u8]) -> Cut
    requires { Prepared prepared.now left Sheet × (base ≤ 128) }
    ensures { result ≡ cut_sheet prepared.now left right base path.now }
{
    let a = automaton_of(prepared, left, Side::Sheet);
    let mid = base + a.count;
    Cut {
        at: border(path, mid),
        left: Spot { node: left, base },
        right: Spot {
            node: right,
            base: mid,
        },
    }
}

// The halves of an old text, the first of which is a text of the left node.
pub fn halves_of(prepared: &[u64], left: usize, place: Place, deck: &[u8]) -> Halves
    requires prepared { Prepared prepared.now left Source × PlaceInside place }
    requires in_bounds { 8192 ≤ length deck.now }
    ensures { result ≡ halves_of prepared.now left place deck.now }
{
    let a = automaton_of(prepared, left, Side::Source);
    let Place { start, len, base } = place;
    let mid = base + a.count;
    let from = Book::PATH + start;
    let i = border(&deck[from..from + len], mid);
    Halves {
        first: Place {
            start,
            len: i,
            base,
        },
        second: Place {
            start: start + i,
            len: len - i,
            base: mid,
        },
    }
}

// Whether a sheet fits a node. If so, its path is that of the node alone; if not, it stays as it was.
fn refit(prepared: &[u64], node: usize, new: &[u8], path: &mut [u8]) -> bool
    requires prepared { Prepared prepared.now node Sheet }
    requires len_bound { (length new.now ≤ 4096) × (length path.old ≡ length new.now) }
    ensures { Refitted prepared.now node new.now path.old path.new result }
{
    let a = automaton_of(prepared, node, Side::Sheet);
    if !belongs(prepared, a, new) {
        return false;
    }
    // For a text of at most 4,096 bytes no room is lent for the sets that finding its path keeps.
    let mut marks = [0];
    find_path(prepared, a, new, &mut marks, path)
}

// The arm at a node creates.
fn created(node: usize, base: usize) -> Choice
    ensures { result ≡ created_at node base }
{
    Choice {
        arm: Spot { node, base },
        old: None,
    }
}

// It puts onto the old text at a place.
fn put_onto(node: usize, base: usize, place: Place) -> Choice
    ensures { result ≡ put_at node base place }
{
    Choice {
        arm: Spot { node, base },
        old: Some(place),
    }
}

// The arm of a create: the left if the path of the sheet goes left, as it does wherever the sheet fits it, otherwise the right.
pub fn choose_new(prepared: &[u64], left: usize, right: usize, base: usize, path: &[u8]) -> Spot
    requires { Prepared prepared.now left Sheet × (base ≤ 128) }
    ensures { ChosenNew prepared.now left right base path.now result }
{
    let a = automaton_of(prepared, left, Side::Sheet);
    let mid = base + a.count;
    if goes_left(path, mid, a.nullable) {
        return Spot { node: left, base };
    }
    Spot {
        node: right,
        base: mid,
    }
}

// The arm of a union onto an old text: that of the old text if the sheet fits it, otherwise the other's create. Where the old text is of the right arm and the path of the
// sheet goes left, the sheet may fit the right arm too: it then gets a path of its own there.
pub fn choose(
    prepared: &[u64],
    left: usize,
    right: usize,
    base: usize,
    new: &[u8],
    path: &mut [u8],
    place: Place,
    deck: &[u8],
) -> Choice
    requires prepared { Prepared prepared.now left Source × Prepared prepared.now left Sheet × Prepared prepared.now right Sheet }
    requires base_bound { (base ≤ 128) × PlaceInside place × (8192 ≤ length deck.now) }
    requires len_bound { (length new.now ≤ 4096) × (length path.old ≡ length new.now) }
    ensures { Chosen prepared.now left right base new.now path.old path.new place deck.now result }
{
    let a = automaton_of(prepared, left, Side::Sheet);
    let mid = base + a.count;
    let fits_left = goes_left(path, mid, a.nullable);
    let b = automaton_of(prepared, left, Side::Source);
    let border = place.base + b.count;
    let from = Book::PATH + place.start;
    if goes_left(&deck[from..from + place.len], border, b.nullable) {
        if fits_left {
            return put_onto(left, base, place);
        }
        return created(right, mid);
    }
    let own = Place {
        base: border,
        ..place
    };
    if !fits_left {
        return put_onto(right, mid, own);
    }
    if refit(prepared, right, new, path) {
        return put_onto(right, 0, own);
    }
    created(left, base)
}

// The positions by which a part of a repeat may end, and begin.
pub fn ends_of(prepared: &[u64], child: usize, side: Side, base: usize) -> Ends
    requires { 16 * child + 16 ≤ length prepared.now }
    ensures { EndsAre prepared.now child side base result }
{
    let part = automaton_of(prepared, child, side);
    cuts::ends_of(part, base)
}

// The positions of an old text's node begin there; at no place, if there is none.
pub fn old_base(old: Option<Place>) -> usize
    ensures { result ≡ old_base old }
{
    match old {
        Some(place) => place.base,
        None => 0,
    }
}

// The next part of an old text, and the rest of it; none where no text is left.
pub fn next_old(old: Option<Place>, ends: Ends, deck: &[u8]) -> Next
    requires { OldInside old × (8192 ≤ length deck.now) }
    ensures { result ≡ next_of old ends deck.now }
{
    let Some(place) = old else {
        return Next {
            part: None,
            rest: None,
        };
    };
    let Place { start, len, base } = place;
    if len == 0 {
        return Next {
            part: None,
            rest: None,
        };
    }
    let from = Book::PATH + start;
    let i = first_loop(&deck[from..from + len], ends.last, ends.first);
    let part = Place {
        start,
        len: i,
        base,
    };
    let rest = Place {
        start: start + i,
        len: len - i,
        base,
    };
    Next {
        part: Some(part),
        rest: Some(rest),
    }
}

// How many parts a sheet of a repeat has.
pub fn count_parts(path: &[u8], ends: Ends) -> usize
    ensures { CountsParts path.now ends result }
{
    let mut o = 0;
    let mut n = 0;
    while o < path.len() {
        o += first_loop(&path[o..], ends.last, ends.first);
        n += 1;
    }
    n
}
