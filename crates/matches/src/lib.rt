// Matches, with the book: the entry that the key of a sheet text finds, and a repeat of a match, whose child writes with no book.
#![tactic(auto)]

ghost use Rattle.std.specs.Prelude.{◌≡◌, length};
ghost use Rattle.semantics.specs.Lens.{repeat, match};
ghost use Rattle.semantics.specs.Table.{trees, lens};
ghost use Rattle.table.specs.Prepared.{OneLens};
ghost use Rattle.automaton.specs.declared.Side.TheVariants.{Sheet};
ghost use Rattle.lens.specs.Emitting.{LensNode};
ghost use Rattle.bookless.specs.Bookless.{NewGiven};
ghost use Rattle.steps.specs.Steps.{EndsAre};
ghost use Rattle.plains.specs.Writing.{WithinBuffer};
ghost use Rattle.matches.specs.WithBook.{LooksIn, Ready, WritesMatches, EntryFound};

use books::{Book, Lookup};
use cards::card_of;
use counted::next_plain;
use cuts::{Ends, first_loop};
use plains::Done;
use std::num::wrapping_add_usize;
use steps::Spot;

// The entry that the key of a sheet text finds, and the book without it.
pub fn find_entry(
    bytes: &[u8],
    prepared: &[u64],
    spot: Spot,
    new: &[u8],
    path: &[u8],
    deck: &[u8],
    card: &mut [u8],
    book: Book,
) -> Lookup
    requires lens_node { LensNode bytes.now prepared.now spot.node }
    requires new_given { NewGiven bytes.now spot new.now path.now deck.now }
    requires looks_in { LooksIn bytes.now deck.now book × (length card.old ≡ 4098) }
    ensures { EntryFound bytes.now spot.node deck.now new.now book result }
{
    let Spot { node, base } = spot;
    let made = card_of(bytes, prepared, node, base, new, path, card);
    book.take(node, made.print, &card[0..made.len], deck)
}

// A repeat of a match: each part onto the entry that its key finds. There is no match inside a match, so its child writes with no book.
pub fn write_matches(
    done: Done,
    bytes: &[u8],
    prepared: &[u64],
    spot: Spot,
    child: usize,
    part: Spot,
    ends: Ends,
    new: &[u8],
    path: &mut [u8],
    deck: &[u8],
    below: &[u64],
    card: &mut [u8],
    out: &mut [u8],
) -> Done
    requires ready { Ready bytes.now prepared.now spot.node deck.now below.now done.book }
    requires one_lens { OneLens (trees bytes.now) spot.node child (λ l. lens (repeat l)) }
    requires one_lens_2 { OneLens (trees bytes.now) child part.node (λ l. lens (match part.node l)) × (part.base ≡ spot.base) }
    requires ends_are { EndsAre prepared.now child Sheet spot.base ends }
    requires new_given { NewGiven bytes.now spot new.now path.old deck.now }
    requires within_buffer { WithinBuffer done out.old × (length card.old ≡ 4098) }
    ensures { WritesMatches bytes.now spot.node deck.now new.now done out.old out.new result }
{
    let Done {
        mut wrote,
        mut book,
        mut met,
    } = done;
    let mut o = 0;
    while o < new.len() {
        let e = o + first_loop(&path[o..], ends.last, ends.first);
        let piece = &new[o..e];
        let track = &mut path[o..e];
        // Looked up here and not by `find_entry`: so the book is not copied in and out for each part.
        let made = card_of(bytes, prepared, part.node, part.base, piece, track, card);
        let lookup = book.take(part.node, made.print, &card[0..made.len], deck);
        book = lookup.book;
        wrote = next_plain(
            wrote, bytes, prepared, part, piece, track, lookup.old, deck, out,
        );
        met = wrapping_add_usize(met, 1);
        o = e;
    }
    Done { wrote, book, met }
}
