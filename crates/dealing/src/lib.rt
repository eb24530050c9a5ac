// The cards of the old entries of a put, dealt into a deck that is lent: with room for the paths of sheets that are no longer than a text or, where one asks for it, for any.
#![tactic(auto)]

ghost use Rattle.std.specs.Prelude.{◌≡◌, ◌+◌, ◌*◌, ◌/◌, ◌≤◌, ◌<◌, length};
ghost use Rattle.answers.specs.Answers.{Ready};
ghost use Rattle.below.specs.Below.{BelowIs};
ghost use Rattle.decks.specs.Dealing.{DealtTo, DealtOn};
ghost use Rattle.dealing.specs.Books.{BookReady};
ghost use Rattle.dealing.specs.Reaches.{first_reach};

use arrays::filled;
use books::Book;
use decks::deck::{Dealing, deal};
use table::Table;

// The sheets of old entries whose paths there is room for: those that are as long as a text may be, or all.
#[derive(Clone, Copy)]
pub enum Reach {
    Short,
    Long,
}

// Room for the path of a sheet that is as long as a text may be, and for the path of any sheet; and for the sets that finding such a path keeps.
const SHORT_PATH: usize = Table::TEXT;

const SHORT_MARKS: usize = 1;

const LONG_PATH: usize = 524288;

const LONG_MARKS: usize = 4096;

// The next cards, as long as there is room for them and, here, for the paths of sheets. The rooms stand in no other frame: so they are on the stack only while cards are dealt, and
// the long ones only where a sheet asks for them.
#[inline(never)]
fn deal_in<const PATH: usize, const MARKS: usize>(
    bytes: &[u8],
    prepared: &[u64],
    old: &[u8],
    trail: &[u8],
    below: &[u64],
    book: Book,
    dealt: Dealing,
    deck: &mut [u8],
) -> Dealing
    requires rooms { (4096 ≤ PATH) × (PATH < 1048576) × (4096 < PATH → 2 * ((PATH + 255) / 256) ≤ MARKS) × (MARKS < 1048576) }
    requires ready { Ready bytes.now prepared.now × BelowIs bytes.now below.now }
    requires book_ready { BookReady bytes.now old.now trail.now book }
    requires dealt_to { DealtTo bytes.now old.now trail.now book deck.old dealt × (length deck.old < 16777216) }
    ensures { DealtOn PATH bytes.now old.now trail.now book deck.new result }
{
    let mut marks: [u64; MARKS] = filled(0);
    let mut path: [u8; PATH] = filled(0);
    let mut card: [u8; Book::CARD] = filled(0);
    deal(
        bytes, prepared, old, trail, below, book, dealt, &mut marks, &mut path, &mut card, deck,
    )
}

// The next cards, as long as there is room for them and for the paths of sheets that are no longer than a text.
pub fn deal_short(
    bytes: &[u8],
    prepared: &[u64],
    old: &[u8],
    trail: &[u8],
    below: &[u64],
    book: Book,
    dealt: Dealing,
    deck: &mut [u8],
) -> Dealing
    requires ready { Ready bytes.now prepared.now × BelowIs bytes.now below.now }
    requires book_ready { BookReady bytes.now old.now trail.now book }
    requires dealt_to { DealtTo bytes.now old.now trail.now book deck.old dealt × (length deck.old < 16777216) }
    ensures { DealtOn 4096 bytes.now old.now trail.now book deck.new result }
{
    deal_in::<SHORT_PATH, SHORT_MARKS>(bytes, prepared, old, trail, below, book, dealt, deck)
}

// The next cards, as long as the deck has room, from a reach on.
pub fn deal_at(
    reach: Reach,
    bytes: &[u8],
    prepared: &[u64],
    old: &[u8],
    trail: &[u8],
    below: &[u64],
    book: Book,
    dealt: Dealing,
    deck: &mut [u8],
) -> Dealing
    requires ready { Ready bytes.now prepared.now × BelowIs bytes.now below.now }
    requires book_ready { BookReady bytes.now old.now trail.now book }
    requires dealt_to { DealtTo bytes.now old.now trail.now book deck.old dealt × (length deck.old < 16777216) }
    ensures { DealtOn 524288 bytes.now old.now trail.now book deck.new result }
{
    match reach {
        Reach::Short => {
            let more = deal_short(bytes, prepared, old, trail, below, book, dealt, deck);
            if more.entries == book.count {
                return more;
            }
            deal_in::<LONG_PATH, LONG_MARKS>(bytes, prepared, old, trail, below, book, more, deck)
        }
        Reach::Long => deal_in::<LONG_PATH, LONG_MARKS>(
            bytes, prepared, old, trail, below, book, dealt, deck,
        ),
    }
}

// The first reach: the short one, since at most 256 entries have cards.
pub fn first_reach(dealt: Dealing) -> Reach
    ensures { result ≡ first_reach dealt.entries }
{
    if Book::ENTRIES < dealt.entries {
        Reach::Long
    } else {
        Reach::Short
    }
}
