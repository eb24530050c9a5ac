// The source of a put, written from a small deck or, where the cards of its old entries ask for more room, from a large one.
#![tactic(auto)]

ghost use Rattle.std.specs.Prelude.{◌≡◌, ◌≤◌, length};
ghost use Rattle.semantics.specs.Lens.{sheet};
ghost use Rattle.answers.specs.Answers.{Ready};
ghost use Rattle.answers.specs.Results.{TextReady};
ghost use Rattle.below.specs.Below.{BelowIs};
ghost use Rattle.books.specs.Looking.{Dealt};
ghost use Rattle.decks.specs.Dealing.{DealtTo};
ghost use Rattle.dealing.specs.Books.{BookReady};
ghost use Rattle.sources.specs.Sources.{MakesSource};

use answers::results::root_of;
use arrays::filled;
use below::fill_below;
use books::{Book, Place};
use counts::{Made, unused_in};
use dealing::{deal_at, deal_short, first_reach};
use decks::deck::{Dealing, begin_deck, move_deck};
use plains::Done;
use steps::Spot;
use table::Table;
use writer::write::put;

// How long a deck is for cards of which the last begins within 5,118 bytes: the keys of a source that are parts of it always have room.
const SMALL_DECK: usize = 18432;

// How long a deck is for 256 cards of any keys. A sheet has at most 128 bytes for each byte of its entry, and for an empty one; so have all cards together, and two bytes more for
// each.
const LARGE_DECK: usize = 570752;

// Room for what stands below each node.
const BELOW: usize = 4 * Table::NODES;

// The source, from a deck with the cards of all entries.
fn write_from(
    bytes: &[u8],
    prepared: &[u64],
    new: &[u8],
    path: &mut [u8],
    old: &[u8],
    trail: &[u8],
    below: &[u64],
    book: Book,
    deck: &[u8],
    out: &mut [u8],
) -> Made
    requires ready { Ready bytes.now prepared.now × BelowIs bytes.now below.now }
    requires text_ready { TextReady bytes.now sheet new.now path.old }
    requires book_ready { BookReady bytes.now old.now trail.now book }
    requires dealt { Dealt bytes.now old.now trail.now book deck.now × (9216 ≤ length deck.now) }
    ensures { MakesSource bytes.now new.now old.now out.old out.new result }
{
    let spot = Spot {
        node: root_of(bytes),
        base: 0,
    };
    let place = Place {
        start: 0,
        len: old.len(),
        base: 0,
    };
    let mut card: [u8; Book::CARD] = filled(0);
    let start = Done {
        wrote: Some(0),
        book,
        met: 0,
    };
    let done = put(
        start, bytes, prepared, spot, new, path, place, deck, below, &mut card, out,
    );
    Made {
        wrote: done.wrote,
        met: done.met,
        dropped: unused_in(&done.book.used, done.book.count),
    }
}

// The source, from a large deck, with the cards that another one has and then the rest. The deck stands in no other frame, and so does the small one.
#[inline(never)]
fn write_large(
    bytes: &[u8],
    prepared: &[u64],
    new: &[u8],
    path: &mut [u8],
    old: &[u8],
    trail: &[u8],
    below: &[u64],
    book: Book,
    dealt: Dealing,
    cards: &[u8],
    out: &mut [u8],
) -> Made
    requires ready { Ready bytes.now prepared.now × BelowIs bytes.now below.now }
    requires text_ready { TextReady bytes.now sheet new.now path.old }
    requires book_ready { BookReady bytes.now old.now trail.now book }
    requires dealt_to { DealtTo bytes.now old.now trail.now book cards.now dealt × (length cards.now ≤ 18432) }
    ensures { MakesSource bytes.now new.now old.now out.old out.new result }
{
    let mut deck: [u8; LARGE_DECK] = filled(0);
    move_deck(cards, dealt, &mut deck);
    let reach = first_reach(dealt);
    let all = deal_at(
        reach, bytes, prepared, old, trail, below, book, dealt, &mut deck,
    );
    if all.entries < book.count {
        return Made {
            wrote: None,
            met: 0,
            dropped: 0,
        };
    }
    write_from(
        bytes, prepared, new, path, old, trail, below, book, &deck, out,
    )
}

// The source, from the small deck; or, where that has not room for every card, from the large one, which goes on from there.
#[inline(never)]
fn write_small(
    bytes: &[u8],
    prepared: &[u64],
    new: &[u8],
    path: &mut [u8],
    old: &[u8],
    trail: &[u8],
    below: &[u64],
    book: Book,
    out: &mut [u8],
) -> Made
    requires ready { Ready bytes.now prepared.now × BelowIs bytes.now below.now }
    requires text_ready { TextReady bytes.now sheet new.now path.old }
    requires book_ready { BookReady bytes.now old.now trail.now book }
    ensures { MakesSource bytes.now new.now old.now out.old out.new result }
{
    let mut deck: [u8; SMALL_DECK] = filled(0);
    let begun = begin_deck(old, trail, &mut deck);
    let dealt = deal_short(bytes, prepared, old, trail, below, book, begun, &mut deck);
    if dealt.entries < book.count {
        return write_large(
            bytes, prepared, new, path, old, trail, below, book, dealt, &deck, out,
        );
    }
    write_from(
        bytes, prepared, new, path, old, trail, below, book, &deck, out,
    )
}

// The source, from the small deck if that has room for the cards, and from the large one otherwise.
pub fn write_source(
    bytes: &[u8],
    prepared: &[u64],
    new: &[u8],
    path: &mut [u8],
    old: &[u8],
    trail: &[u8],
    book: Book,
    out: &mut [u8],
) -> Made
    requires ready { Ready bytes.now prepared.now }
    requires text_ready { TextReady bytes.now sheet new.now path.old }
    requires book_ready { BookReady bytes.now old.now trail.now book }
    ensures { MakesSource bytes.now new.now old.now out.old out.new result }
{
    let mut below: [u64; BELOW] = filled(0);
    let nodes = root_of(bytes) + 1;
    fill_below(bytes, prepared, nodes, &mut below);
    write_small(bytes, prepared, new, path, old, trail, &below, book, out)
}
