// Put where no old entry answers: onto an old text, with no book. Without an old text it is create, which is read off the sheet.
#![tactic(auto)]

ghost use Rattle.std.proofs.Math.Option.{some};
ghost use Rattle.semantics.specs.Lens.{repeat};
ghost use Rattle.semantics.specs.Table.{trees, lens};
ghost use Rattle.table.specs.Prepared.{OneLens};
ghost use Rattle.lens.specs.Emitting.{LensNode};
ghost use Rattle.books.specs.Looking.{part_at, old_text};
ghost use Rattle.bookless.specs.Bookless.{Given, GivenOld, GivenJoin, PutsText, PutsJoin};

use automaton::Side;
use books::Place;
use cuts::first_loop;
use lens::Mode;
use lens::read::emit;
use steps::{Spot, choose, cut_sheet, ends_of, halves_of, next_old};
use table::{Kind, Table};
use texts::write_text;

// What a node writes with no book, onto an old text or without one.
#[cycle(put_put_join_put_parts_write)]
pub fn write(
    bytes: &[u8],
    prepared: &[u64],
    spot: Spot,
    new: &[u8],
    path: &mut [u8],
    old: Option<Place>,
    deck: &[u8],
    out: &mut [u8],
) -> Option<usize>
    requires lens_node { LensNode bytes.now prepared.now spot.node }
    requires given_old { GivenOld bytes.now spot new.now path.old old deck.now }
    ensures { PutsText bytes.now spot.node (old_text deck.now old) new.now out.old out.new result }
{
    let Spot { node, base } = spot;
    match old {
        Some(place) => put(bytes, prepared, spot, new, path, place, deck, out),
        None => emit(bytes, prepared, node, Mode::Create, base, new, path, out),
    }
}

// A sheet is put onto an old text.
#[cycle(put_put_join_put_parts_write)]
pub fn put(
    bytes: &[u8],
    prepared: &[u64],
    spot: Spot,
    new: &[u8],
    path: &mut [u8],
    place: Place,
    deck: &[u8],
    out: &mut [u8],
) -> Option<usize>
    requires lens_node { LensNode bytes.now prepared.now spot.node }
    requires given { Given bytes.now spot new.now path.old place deck.now }
    ensures { PutsText bytes.now spot.node (some (part_at deck.now place)) new.now out.old out.new result }
{
    let Spot { node, base } = spot;
    let read = Table::node(bytes, prepared, node);
    match read.kind {
        Kind::Word { .. }
        | Kind::OneOf { .. }
        | Kind::PatternJoin { .. }
        | Kind::PatternUnion { .. }
        | Kind::PatternRepeat { .. } => Some(0),
        Kind::Copy { .. } | Kind::Key { .. } => write_text(new, out),
        Kind::Const { .. } => write_text(&deck[place.start..place.start + place.len], out),
        Kind::LensJoin { left: a, right: b } => {
            put_join(bytes, prepared, a, b, base, new, path, place, deck, out)
        }
        Kind::LensUnion { left, right } => {
            let choice = choose(prepared, left, right, base, new, path, place, deck);
            write(
                bytes, prepared, choice.arm, new, path, choice.old, deck, out,
            )
        }
        Kind::LensRepeat { child: a } => {
            put_parts(bytes, prepared, node, a, base, new, path, place, deck, out)
        }
        Kind::Match { child } => emit(bytes, prepared, child, Mode::Create, base, new, path, out),
    }
}

// A join: the left half, and directly behind it the right half.
#[cycle(put_put_join_put_parts_write)]
fn put_join(
    bytes: &[u8],
    prepared: &[u64],
    left: usize,
    right: usize,
    base: usize,
    new: &[u8],
    path: &mut [u8],
    place: Place,
    deck: &[u8],
    out: &mut [u8],
) -> Option<usize>
    requires lens_node { LensNode bytes.now prepared.now left × LensNode bytes.now prepared.now right }
    requires given_join { GivenJoin bytes.now left right base new.now path.old place deck.now }
    ensures { PutsJoin bytes.now left right (some (part_at deck.now place)) new.now out.old out.new result }
{
    let cut = cut_sheet(prepared, left, right, base, path);
    let i = cut.at;
    let halves = halves_of(prepared, left, place, deck);
    let n = put(
        bytes,
        prepared,
        cut.left,
        &new[0..i],
        &mut path[0..i],
        halves.first,
        deck,
        out,
    )?;
    let m = put(
        bytes,
        prepared,
        cut.right,
        &new[i..],
        &mut path[i..],
        halves.second,
        deck,
        &mut out[n..],
    )?;
    Some(n + m)
}

// A repeat: part n of the sheet onto part n of the old text; parts left over are created.
#[cycle(put_put_join_put_parts_write)]
fn put_parts(
    bytes: &[u8],
    prepared: &[u64],
    node: usize,
    child: usize,
    base: usize,
    new: &[u8],
    path: &mut [u8],
    place: Place,
    deck: &[u8],
    out: &mut [u8],
) -> Option<usize>
    requires lens_node { LensNode bytes.now prepared.now node }
    requires one_lens { OneLens (trees bytes.now) node child (λ l. lens (repeat l)) }
    requires given { Given bytes.now (record { node = node; base = base }) new.now path.old place deck.now }
    ensures { PutsText bytes.now node (some (part_at deck.now place)) new.now out.old out.new result }
{
    let spot = Spot { node: child, base };
    let ends = ends_of(prepared, child, Side::Sheet, base);
    let olds = ends_of(prepared, child, Side::Source, place.base);
    let mut left = Some(place);
    let mut o = 0;
    let mut n = 0;
    while o < new.len() {
        let e = o + first_loop(&path[o..], ends.last, ends.first);
        let next = next_old(left, olds, deck);
        left = next.rest;
        let m = write(
            bytes,
            prepared,
            spot,
            &new[o..e],
            &mut path[o..e],
            next.part,
            deck,
            &mut out[n..],
        )?;
        o = e;
        n += m;
    }
    Some(n)
}
