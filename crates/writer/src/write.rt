// A lens writes the source of a sheet behind what was written: `put` onto an old text, `create` without one. The two call each other, and the node falls at each call. The book
// goes from left to right; a node none of whose matches can find an entry writes without it. Cuts, arms and parts are read off the paths of the sheet and of the old source.
// Each function on the way down holds the book twice, as it came and as it comes back: so `done` is written over where two calls follow each other, and what every node does with an old
// text or none is no function of its own.
ghost use Rattle.std.specs.Prelude.{◌≡◌, length};
ghost use Rattle.std.proofs.Math.Option.{none, some};
ghost use Rattle.semantics.specs.Lens.{repeat};
ghost use Rattle.semantics.specs.Table.{trees, lens};
ghost use Rattle.table.specs.Prepared.{OneLens};
ghost use Rattle.automaton.specs.declared.Side.TheVariants.{Sheet};
ghost use Rattle.books.specs.Looking.{part_at, old_text};
ghost use Rattle.bookless.specs.Bookless.{NewGiven, Given, GivenOld};
ghost use Rattle.steps.specs.Steps.{EndsAre};
ghost use Rattle.plains.specs.Writing.{AsksNone, NoMatch, WithinBuffer, WritesBehind};
ghost use Rattle.matches.specs.WithBook.{Ready, WritesMatch};

use automaton::Side;
use below::{asks_none, even_count};
use books::Place;
use counted::{Plain, next_counted};
use cuts::{Ends, first_loop};
use matches::{find_entry, write_matches};
use plains::Done;
use plains::plain::write_plain;
use std::num::wrapping_add_usize;
use steps::{Spot, choose, choose_new, cut_sheet, ends_of, halves_of, next_old, old_base};
use table::{Kind, Table};

// What a node that asks for nothing writes behind what was written, and how many matches it meets. The book stays as it is. A node whose count depends on no text is written whole:
// `write_plain` would do that too, but most nodes are such, and the way is shorter from here.
fn plain_behind(
    done: Done,
    bytes: &[u8],
    prepared: &[u64],
    spot: Spot,
    new: &[u8],
    path: &mut [u8],
    old: Option<Place>,
    deck: &[u8],
    below: &[u64],
    out: &mut [u8],
) -> Done
    requires ready { Ready bytes.now prepared.now spot.node deck.now below.now done.book }
    requires given_old { GivenOld bytes.now spot new.now path.old old deck.now }
    requires within_buffer { WithinBuffer done out.old × AsksNone below.now spot.node done.book }
    ensures { WritesBehind bytes.now spot.node deck.now (old_text deck.now old) new.now done out.old out.new result }
{
    let plain = Plain {
        wrote: done.wrote,
        met: done.met,
    };
    if let Some(matches) = even_count(below, spot.node) {
        let more = next_counted(
            plain,
            matches as usize,
            bytes,
            prepared,
            spot,
            new,
            path,
            old,
            deck,
            out,
        );
        return Done {
            wrote: more.wrote,
            book: done.book,
            met: more.met,
        };
    }
    let more = write_plain(
        plain, bytes, prepared, spot, new, path, old, deck, below, out,
    );
    Done {
        wrote: more.wrote,
        book: done.book,
        met: more.met,
    }
}

// A sheet is put onto an old text. A node with no lens below it looks nothing up, so it writes without the book.
#[cycle(create_put_write_match_write_parts_write_repeat)]
pub fn put(
    mut done: Done,
    bytes: &[u8],
    prepared: &[u64],
    spot: Spot,
    new: &[u8],
    path: &mut [u8],
    place: Place,
    deck: &[u8],
    below: &[u64],
    card: &mut [u8],
    out: &mut [u8],
) -> Done
    requires ready { Ready bytes.now prepared.now spot.node deck.now below.now done.book }
    requires given { Given bytes.now spot new.now path.old place deck.now }
    requires within_buffer { WithinBuffer done out.old × (length card.old ≡ 4098) }
    ensures { WritesBehind bytes.now spot.node deck.now (some (part_at deck.now place)) new.now done out.old out.new result }
{
    let Spot { node, base } = spot;
    let old = Some(place);
    if asks_none(below, node, done.book.left) {
        return plain_behind(
            done, bytes, prepared, spot, new, path, old, deck, below, out,
        );
    }
    let read = Table::node(bytes, prepared, node);
    match read.kind {
        Kind::LensJoin { left, right } => {
            let cut = cut_sheet(prepared, left, right, base, path);
            let i = cut.at;
            let halves = halves_of(prepared, left, place, deck);
            let front = &new[0..i];
            let track = &mut path[0..i];
            done = put(
                done,
                bytes,
                prepared,
                cut.left,
                front,
                track,
                halves.first,
                deck,
                below,
                card,
                out,
            );
            let back = &new[i..];
            let track = &mut path[i..];
            return put(
                done,
                bytes,
                prepared,
                cut.right,
                back,
                track,
                halves.second,
                deck,
                below,
                card,
                out,
            );
        }
        Kind::LensUnion { left, right } => {
            let choice = choose(prepared, left, right, base, new, path, place, deck);
            let arm = choice.arm;
            match choice.old {
                Some(place) => {
                    return put(
                        done, bytes, prepared, arm, new, path, place, deck, below, card, out,
                    );
                }
                None => {
                    return create(
                        done, bytes, prepared, arm, new, path, deck, below, card, out,
                    );
                }
            }
        }
        Kind::LensRepeat { child } => {
            return write_repeat(
                done, bytes, prepared, spot, child, new, path, old, deck, below, card, out,
            );
        }
        Kind::Match { child } => {
            let inner = Spot { node: child, base };
            return write_match(
                done, bytes, prepared, inner, new, path, deck, below, card, out,
            );
        }
        _ => {
            return plain_behind(
                done, bytes, prepared, spot, new, path, old, deck, below, out,
            );
        }
    }
}

// A sheet, and no old text.
#[cycle(create_put_write_match_write_parts_write_repeat)]
pub fn create(
    mut done: Done,
    bytes: &[u8],
    prepared: &[u64],
    spot: Spot,
    new: &[u8],
    path: &mut [u8],
    deck: &[u8],
    below: &[u64],
    card: &mut [u8],
    out: &mut [u8],
) -> Done
    requires ready { Ready bytes.now prepared.now spot.node deck.now below.now done.book }
    requires new_given { NewGiven bytes.now spot new.now path.old deck.now }
    requires within_buffer { WithinBuffer done out.old × (length card.old ≡ 4098) }
    ensures { WritesBehind bytes.now spot.node deck.now none new.now done out.old out.new result }
{
    let Spot { node, base } = spot;
    let old = None;
    if asks_none(below, node, done.book.left) {
        return plain_behind(
            done, bytes, prepared, spot, new, path, old, deck, below, out,
        );
    }
    let read = Table::node(bytes, prepared, node);
    match read.kind {
        Kind::LensJoin { left, right } => {
            let cut = cut_sheet(prepared, left, right, base, path);
            let i = cut.at;
            let front = &new[0..i];
            let track = &mut path[0..i];
            done = create(
                done, bytes, prepared, cut.left, front, track, deck, below, card, out,
            );
            let back = &new[i..];
            let track = &mut path[i..];
            return create(
                done, bytes, prepared, cut.right, back, track, deck, below, card, out,
            );
        }
        Kind::LensUnion { left, right } => {
            let arm = choose_new(prepared, left, right, base, path);
            return create(
                done, bytes, prepared, arm, new, path, deck, below, card, out,
            );
        }
        Kind::LensRepeat { child } => {
            return write_repeat(
                done, bytes, prepared, spot, child, new, path, old, deck, below, card, out,
            );
        }
        Kind::Match { child } => {
            let inner = Spot { node: child, base };
            return write_match(
                done, bytes, prepared, inner, new, path, deck, below, card, out,
            );
        }
        _ => {
            return plain_behind(
                done, bytes, prepared, spot, new, path, old, deck, below, out,
            );
        }
    }
}

// The parts of a repeat: part n of the sheet onto part n of the old text; parts left over are created.
#[cycle(create_put_write_match_write_parts_write_repeat)]
fn write_parts(
    mut done: Done,
    bytes: &[u8],
    prepared: &[u64],
    spot: Spot,
    child: usize,
    ends: Ends,
    new: &[u8],
    path: &mut [u8],
    old: Option<Place>,
    deck: &[u8],
    below: &[u64],
    card: &mut [u8],
    out: &mut [u8],
) -> Done
    requires ready { Ready bytes.now prepared.now spot.node deck.now below.now done.book }
    requires one_lens { OneLens (trees bytes.now) spot.node child (λ l. lens (repeat l)) }
    requires ends_are { EndsAre prepared.now child Sheet spot.base ends }
    requires given_old { GivenOld bytes.now spot new.now path.old old deck.now }
    requires within_buffer { WithinBuffer done out.old × (length card.old ≡ 4098) }
    ensures { WritesBehind bytes.now spot.node deck.now (old_text deck.now old) new.now done out.old out.new result }
{
    let base = spot.base;
    let part = Spot { node: child, base };
    let olds = ends_of(prepared, child, Side::Source, old_base(old));
    let mut left = old;
    let mut o = 0;
    while o < new.len() {
        let e = o + first_loop(&path[o..], ends.last, ends.first);
        let next = next_old(left, olds, deck);
        left = next.rest;
        let piece = &new[o..e];
        let track = &mut path[o..e];
        match next.part {
            Some(place) => {
                done = put(
                    done, bytes, prepared, part, piece, track, place, deck, below, card, out,
                );
            }
            None => {
                done = create(
                    done, bytes, prepared, part, piece, track, deck, below, card, out,
                );
            }
        }
        o = e;
    }
    done
}

// A repeat. A match does not look at the old text at its own place, so a repeat of one cuts none.
#[cycle(create_put_write_match_write_parts_write_repeat)]
fn write_repeat(
    done: Done,
    bytes: &[u8],
    prepared: &[u64],
    spot: Spot,
    child: usize,
    new: &[u8],
    path: &mut [u8],
    old: Option<Place>,
    deck: &[u8],
    below: &[u64],
    card: &mut [u8],
    out: &mut [u8],
) -> Done
    requires ready { Ready bytes.now prepared.now spot.node deck.now below.now done.book }
    requires one_lens { OneLens (trees bytes.now) spot.node child (λ l. lens (repeat l)) }
    requires given_old { GivenOld bytes.now spot new.now path.old old deck.now }
    requires within_buffer { WithinBuffer done out.old × (length card.old ≡ 4098) }
    ensures { WritesBehind bytes.now spot.node deck.now (old_text deck.now old) new.now done out.old out.new result }
{
    let base = spot.base;
    let ends = ends_of(prepared, child, Side::Sheet, base);
    let read = Table::node(bytes, prepared, child);
    if let Kind::Match { child: inner } = read.kind {
        let part = Spot { node: inner, base };
        return write_matches(
            done, bytes, prepared, spot, child, part, ends, new, path, deck, below, card, out,
        );
    }
    write_parts(
        done, bytes, prepared, spot, child, ends, new, path, old, deck, below, card, out,
    )
}

// A match: put onto the entry that the key finds, or create where there is none. Its child holds no match.
#[cycle(create_put_write_match_write_parts_write_repeat)]
fn write_match(
    done: Done,
    bytes: &[u8],
    prepared: &[u64],
    spot: Spot,
    new: &[u8],
    path: &mut [u8],
    deck: &[u8],
    below: &[u64],
    card: &mut [u8],
    out: &mut [u8],
) -> Done
    requires ready { Ready bytes.now prepared.now spot.node deck.now below.now done.book }
    requires new_given { NewGiven bytes.now spot new.now path.old deck.now × NoMatch bytes.now spot.node }
    requires within_buffer { WithinBuffer done out.old × (length card.old ≡ 4098) }
    ensures { WritesMatch bytes.now spot.node deck.now new.now done out.old out.new result }
{
    let lookup = find_entry(bytes, prepared, spot, new, path, deck, card, done.book);
    let left = Done {
        wrote: done.wrote,
        book: lookup.book,
        met: wrapping_add_usize(done.met, 1),
    };
    match lookup.old {
        Some(place) => put(
            left, bytes, prepared, spot, new, path, place, deck, below, card, out,
        ),
        None => create(
            left, bytes, prepared, spot, new, path, deck, below, card, out,
        ),
    }
}
