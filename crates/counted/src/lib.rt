// What a node writes behind what was written where none of its matches can find an entry, with no book, and the count of the matches that it meets.
#![tactic(auto)]

ghost use Rattle.lens.specs.Emitting.{LensNode};
ghost use Rattle.books.specs.Looking.{old_text};
ghost use Rattle.bookless.specs.Bookless.{GivenOld};
ghost use Rattle.counted.specs.Counted.{MeetsThere, Fitted, WritesNext, MeetsNext};

use bookless::write;
use books::Place;
use std::num::wrapping_add_usize;
use steps::Spot;

// What was written so far, and how many matches were met, modulo 2^64.
#[derive(Clone, Copy)]
pub struct Plain {
    pub wrote: Option<usize>,
    pub met: usize,
}

// What a node writes behind what was written, with no book.
pub fn next_plain(
    wrote: Option<usize>,
    bytes: &[u8],
    prepared: &[u64],
    spot: Spot,
    new: &[u8],
    path: &mut [u8],
    old: Option<Place>,
    deck: &[u8],
    out: &mut [u8],
) -> Option<usize>
    requires lens_node { LensNode bytes.now prepared.now spot.node }
    requires given_old { GivenOld bytes.now spot new.now path.old old deck.now }
    requires fitted { Fitted wrote out.old }
    ensures { WritesNext bytes.now spot.node (old_text deck.now old) new.now wrote out.old out.new result }
{
    let n = wrote?;
    let m = write(bytes, prepared, spot, new, path, old, deck, &mut out[n..])?;
    Some(n + m)
}

// The same of a node that meets so many matches.
pub fn next_counted(
    plain: Plain,
    matches: usize,
    bytes: &[u8],
    prepared: &[u64],
    spot: Spot,
    new: &[u8],
    path: &mut [u8],
    old: Option<Place>,
    deck: &[u8],
    out: &mut [u8],
) -> Plain
    requires lens_node { LensNode bytes.now prepared.now spot.node }
    requires given_old { GivenOld bytes.now spot new.now path.old old deck.now }
    requires fitted { Fitted plain.wrote out.old × MeetsThere bytes.now spot.node (old_text deck.now old) new.now matches }
    ensures { MeetsNext bytes.now spot.node (old_text deck.now old) new.now matches plain out.old out.new result }
{
    let wrote = next_plain(
        plain.wrote,
        bytes,
        prepared,
        spot,
        new,
        path,
        old,
        deck,
        out,
    );
    let met = wrapping_add_usize(plain.met, matches);
    Plain { wrote, met }
}
