// What a lens writes behind what was written where none of its matches can find an entry, and how many matches it meets. No book is needed for that, so none is handed on: `put_plain` onto
// an old text, `create_plain` without one. The two call each other, and the node falls at each call.
ghost use Rattle.std.proofs.Math.Option.{none, some};
ghost use Rattle.semantics.specs.Lens.{repeat};
ghost use Rattle.semantics.specs.Table.{trees, lens};
ghost use Rattle.table.specs.Prepared.{OneLens};
ghost use Rattle.automaton.specs.declared.Side.TheVariants.{Sheet};
ghost use Rattle.books.specs.Looking.{part_at, old_text};
ghost use Rattle.bookless.specs.Bookless.{NewGiven, Given, GivenOld};
ghost use Rattle.steps.specs.Steps.{EndsAre};
ghost use Rattle.counted.specs.Counted.{Fitted};
ghost use Rattle.plains.specs.Writing.{PlainReady, WritesPlainly};

use automaton::Side;
use below::even_count;
use books::Place;
use counted::{Plain, next_counted};
use cuts::{Ends, first_loop};
use steps::{
    Spot, choose, choose_new, count_parts, cut_sheet, ends_of, halves_of, next_old, old_base,
};
use table::{Kind, Table};

// A sheet is put onto an old text. A node whose count depends on no text is written whole.
#[cycle(create_plain_parts_plain_put_plain_repeat_plain)]
pub fn put_plain(
    mut plain: Plain,
    bytes: &[u8],
    prepared: &[u64],
    spot: Spot,
    new: &[u8],
    path: &mut [u8],
    place: Place,
    deck: &[u8],
    below: &[u64],
    out: &mut [u8],
) -> Plain
    requires plain_ready { PlainReady bytes.now prepared.now spot.node below.now }
    requires given { Given bytes.now spot new.now path.old place deck.now }
    requires fitted { Fitted plain.wrote out.old }
    ensures { WritesPlainly bytes.now spot.node deck.now below.now (some (part_at deck.now place)) new.now plain out.old out.new result }
{
    let Spot { node, base } = spot;
    let old = Some(place);
    if let Some(matches) = even_count(below, node) {
        return next_counted(
            plain,
            matches as usize,
            bytes,
            prepared,
            spot,
            new,
            path,
            old,
            deck,
            out,
        );
    }
    let read = Table::node(bytes, prepared, node);
    match read.kind {
        Kind::LensJoin { left, right } => {
            let cut = cut_sheet(prepared, left, right, base, path);
            let i = cut.at;
            let halves = halves_of(prepared, left, place, deck);
            let front = &new[0..i];
            let track = &mut path[0..i];
            plain = put_plain(
                plain,
                bytes,
                prepared,
                cut.left,
                front,
                track,
                halves.first,
                deck,
                below,
                out,
            );
            let back = &new[i..];
            let track = &mut path[i..];
            put_plain(
                plain,
                bytes,
                prepared,
                cut.right,
                back,
                track,
                halves.second,
                deck,
                below,
                out,
            )
        }
        Kind::LensUnion { left, right } => {
            let choice = choose(prepared, left, right, base, new, path, place, deck);
            let arm = choice.arm;
            match choice.old {
                Some(place) => put_plain(
                    plain, bytes, prepared, arm, new, path, place, deck, below, out,
                ),
                None => create_plain(plain, bytes, prepared, arm, new, path, deck, below, out),
            }
        }
        Kind::LensRepeat { child } => {
            repeat_plain(
                plain, bytes, prepared, spot, child, new, path, old, deck, below, out,
            )
        }
        Kind::Match { .. } => next_counted(
            plain, 1, bytes, prepared, spot, new, path, old, deck, out,
        ),
        _ => next_counted(plain, 0, bytes, prepared, spot, new, path, old, deck, out),
    }
}

// A sheet, and no old text.
#[cycle(create_plain_parts_plain_put_plain_repeat_plain)]
pub fn create_plain(
    mut plain: Plain,
    bytes: &[u8],
    prepared: &[u64],
    spot: Spot,
    new: &[u8],
    path: &mut [u8],
    deck: &[u8],
    below: &[u64],
    out: &mut [u8],
) -> Plain
    requires plain_ready { PlainReady bytes.now prepared.now spot.node below.now }
    requires new_given { NewGiven bytes.now spot new.now path.old deck.now }
    requires fitted { Fitted plain.wrote out.old }
    ensures { WritesPlainly bytes.now spot.node deck.now below.now none new.now plain out.old out.new result }
{
    let Spot { node, base } = spot;
    let old = None;
    if let Some(matches) = even_count(below, node) {
        return next_counted(
            plain,
            matches as usize,
            bytes,
            prepared,
            spot,
            new,
            path,
            old,
            deck,
            out,
        );
    }
    let read = Table::node(bytes, prepared, node);
    match read.kind {
        Kind::LensJoin { left, right } => {
            let cut = cut_sheet(prepared, left, right, base, path);
            let i = cut.at;
            let front = &new[0..i];
            let track = &mut path[0..i];
            plain = create_plain(
                plain, bytes, prepared, cut.left, front, track, deck, below, out,
            );
            let back = &new[i..];
            let track = &mut path[i..];
            create_plain(
                plain, bytes, prepared, cut.right, back, track, deck, below, out,
            )
        }
        Kind::LensUnion { left, right } => {
            let arm = choose_new(prepared, left, right, base, path);
            create_plain(plain, bytes, prepared, arm, new, path, deck, below, out)
        }
        Kind::LensRepeat { child } => {
            repeat_plain(
                plain, bytes, prepared, spot, child, new, path, old, deck, below, out,
            )
        }
        Kind::Match { .. } => next_counted(
            plain, 1, bytes, prepared, spot, new, path, old, deck, out,
        ),
        _ => next_counted(plain, 0, bytes, prepared, spot, new, path, old, deck, out),
    }
}

// A repeat. One whose parts all meet as many matches is written whole, and its parts are counted.
#[cycle(create_plain_parts_plain_put_plain_repeat_plain)]
fn repeat_plain(
    plain: Plain,
    bytes: &[u8],
    prepared: &[u64],
    spot: Spot,
    child: usize,
    new: &[u8],
    path: &mut [u8],
    old: Option<Place>,
    deck: &[u8],
    below: &[u64],
    out: &mut [u8],
) -> Plain
    requires plain_ready { PlainReady bytes.now prepared.now spot.node below.now }
    requires one_lens { OneLens (trees bytes.now) spot.node child (λ l. lens (repeat l)) }
    requires given_old { GivenOld bytes.now spot new.now path.old old deck.now }
    requires fitted { Fitted plain.wrote out.old }
    ensures { WritesPlainly bytes.now spot.node deck.now below.now (old_text deck.now old) new.now plain out.old out.new result }
{
    let base = spot.base;
    let ends = ends_of(prepared, child, Side::Sheet, base);
    if let Some(each) = even_count(below, child) {
        let matches = (each as usize) * count_parts(path, ends);
        return next_counted(
            plain, matches, bytes, prepared, spot, new, path, old, deck, out,
        );
    }
    parts_plain(
        plain, bytes, prepared, spot, child, ends, new, path, old, deck, below, out,
    )
}

// The parts of a repeat: part n of the sheet onto part n of the old text; parts left over are created.
#[cycle(create_plain_parts_plain_put_plain_repeat_plain)]
fn parts_plain(
    mut plain: Plain,
    bytes: &[u8],
    prepared: &[u64],
    spot: Spot,
    child: usize,
    ends: Ends,
    new: &[u8],
    path: &mut [u8],
    old: Option<Place>,
    deck: &[u8],
    below: &[u64],
    out: &mut [u8],
) -> Plain
    requires plain_ready { PlainReady bytes.now prepared.now spot.node below.now }
    requires one_lens { OneLens (trees bytes.now) spot.node child (λ l. lens (repeat l)) }
    requires ends_are { EndsAre prepared.now child Sheet spot.base ends }
    requires given_old { GivenOld bytes.now spot new.now path.old old deck.now }
    requires fitted { Fitted plain.wrote out.old }
    ensures { WritesPlainly bytes.now spot.node deck.now below.now (old_text deck.now old) new.now plain out.old out.new result }
{
    let base = spot.base;
    let part = Spot { node: child, base };
    let olds = ends_of(prepared, child, Side::Source, old_base(old));
    let mut left = old;
    let mut o = 0;
    while o < new.len() {
        let e = o + first_loop(&path[o..], ends.last, ends.first);
        let next = next_old(left, olds, deck);
        left = next.rest;
        let piece = &new[o..e];
        let track = &mut path[o..e];
        match next.part {
            Some(place) => {
                plain = put_plain(
                    plain, bytes, prepared, part, piece, track, place, deck, below, out,
                );
            }
            None => {
                plain = create_plain(plain, bytes, prepared, part, piece, track, deck, below, out);
            }
        }
        o = e;
    }
    plain
}

// With an old text or without one.
pub fn write_plain(
    plain: Plain,
    bytes: &[u8],
    prepared: &[u64],
    spot: Spot,
    new: &[u8],
    path: &mut [u8],
    old: Option<Place>,
    deck: &[u8],
    below: &[u64],
    out: &mut [u8],
) -> Plain
    requires plain_ready { PlainReady bytes.now prepared.now spot.node below.now }
    requires given_old { GivenOld bytes.now spot new.now path.old old deck.now }
    requires fitted { Fitted plain.wrote out.old }
    ensures { WritesPlainly bytes.now spot.node deck.now below.now (old_text deck.now old) new.now plain out.old out.new result }
{
    match old {
        Some(place) => put_plain(
            plain, bytes, prepared, spot, new, path, place, deck, below, out,
        ),
        None => create_plain(plain, bytes, prepared, spot, new, path, deck, below, out),
    }
}
