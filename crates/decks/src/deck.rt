// The deck: the old source, in the first 4,096 bytes; its path, in the next 4,096; for each of 256 entries one byte of its key's fingerprint, and three for where
// its card stands; and then the cards, one behind the other. A sheet that is made for its key stands, until it has its card, where the card will.
ghost use Rattle.std.specs.Prelude.{◌≡◌, ◌+◌, ◌*◌, ◌≤◌, ◌<◌, length};
ghost use Rattle.semantics.specs.Text.{Text};
ghost use Rattle.semantics.specs.Lens.{source};
ghost use Rattle.automaton.specs.Built.{Built};
ghost use Rattle.lens.specs.Emitting.{LensNode};
ghost use Rattle.lens.specs.Parsed.{Parsed};
ghost use Rattle.books.specs.declared.Book.{Book};
ghost use Rattle.books.specs.Listed.{InOrder};
ghost use Rattle.books.specs.Looking.{BookOver, EntriesParsed};
ghost use Rattle.below.specs.Below.{BelowIs};
ghost use Rattle.decks.specs.Dealing.{PathRoom, CardTried, HeadPut, DealtTo, Begun, MovedTo, DealtOn};

use below::has_union;
use books::Book;
use cards::{Card, seal};
use lens::Mode;
use lens::read::{emit, read_text};
use texts::write_text;

// How far the cards of a book have come: so many entries have theirs, and the last one ends at `at`.
#[derive(Clone, Copy)]
pub struct Dealing {
    pub entries: usize,
    pub at: usize,
}

// The card of an old entry's key, that of its own sheet; none where there is no room for the sheet or its path. The sheet is made in the room first, and the card then put in its
// place.
fn sheet_card(
    bytes: &[u8],
    prepared: &[u64],
    child: usize,
    base: usize,
    text: &[u8],
    trail: &[u8],
    marks: &mut [u64],
    path: &mut [u8],
    card: &mut [u8],
    room: &mut [u8],
) -> Option<Card>
    requires lens_node { LensNode bytes.now prepared.now child }
    requires parsed { Parsed bytes.now child source base trail.now text.now }
    requires text_len_bound { (length text.now ≤ 4096) × (length card.old ≡ 4098) × (4098 ≤ length room.old) }
    requires path_room { PathRoom marks.old path.old }
    ensures { CardTried bytes.now child text.now path.old room.new result }
{
    let most = path.len().min(room.len());
    let sheet = &mut room[0..most];
    let n = emit(bytes, prepared, child, Mode::Get, base, text, trail, sheet)?;
    let made = &room[0..n];
    let behind = &mut card[2..];
    let key = read_text(bytes, prepared, child, Mode::Key, made, marks, path, behind);
    let sealed = seal(card, key);
    write_text(&card[0..sealed.len], room);
    Some(sealed)
}

// The card of an old entry's key, at the beginning of the room. Where there is no union below, the key is read off the source and no sheet is made.
fn entry_card(
    bytes: &[u8],
    prepared: &[u64],
    child: usize,
    base: usize,
    text: &[u8],
    trail: &[u8],
    below: &[u64],
    marks: &mut [u64],
    path: &mut [u8],
    card: &mut [u8],
    room: &mut [u8],
) -> Option<Card>
    requires lens_node { LensNode bytes.now prepared.now child }
    requires parsed { Parsed bytes.now child source base trail.now text.now }
    requires below_is { BelowIs bytes.now below.now }
    requires text_len_bound { (length text.now ≤ 4096) × (length card.old ≡ 4098) × (4098 ≤ length room.old) }
    requires path_room { PathRoom marks.old path.old }
    ensures { CardTried bytes.now child text.now path.old room.new result }
{
    if has_union(below, child) {
        return sheet_card(
            bytes, prepared, child, base, text, trail, marks, path, card, room,
        );
    }
    let slot = &mut room[0..Book::CARD];
    let behind = &mut slot[2..];
    let key = emit(
        bytes,
        prepared,
        child,
        Mode::SourceKey,
        base,
        text,
        trail,
        behind,
    );
    Some(seal(slot, key))
}

// The head of entry i: a byte of its key's fingerprint, and where its card stands.
fn put_head(deck: &mut [u8], i: usize, print: u8, at: usize)
    requires i_bound { (i < 256) × (9216 ≤ length deck.old) }
    requires at_bound { at < 16777216 }
    ensures { HeadPut deck.old i print at deck.new }
{
    let j = Book::PLACES + 3 * i;
    deck[Book::PRINTS + i] = print;
    deck[j] = (at / 65536) as u8;
    deck[j + 1] = (at / 256 % 256) as u8;
    deck[j + 2] = (at % 256) as u8;
}

// An old source and its path are put into a deck, which has no card yet.
pub fn begin_deck(source: &[u8], trail: &[u8], deck: &mut [u8]) -> Dealing
    requires { (length source.now ≤ 4096) × (length trail.now ≡ length source.now) × (9216 ≤ length deck.old) }
    ensures { Begun source.now trail.now deck.new result }
{
    write_text(source, deck);
    write_text(trail, &mut deck[Book::PATH..]);
    Dealing {
        entries: 0,
        at: Book::CARDS,
    }
}

// What a deck has so far is put into another one.
pub fn move_deck(from: &[u8], dealt: Dealing, deck: &mut [u8])
    requires { (9216 ≤ dealt.at) × (dealt.at ≤ length from.now) × (dealt.at ≤ length deck.old) }
    ensures { (bytes source trail : Text) (b : Book) → MovedTo bytes source trail b from.now deck.new dealt }
{
    write_text(&from[0..dealt.at], deck);
}

// The cards of the next entries are put behind those that are there, as long as there is room. The promise limits: how far it comes is left open where the deck, or the room
// for a path, is shorter than a sheet may ask for.
pub fn deal(
    bytes: &[u8],
    prepared: &[u64],
    source: &[u8],
    trail: &[u8],
    below: &[u64],
    book: Book,
    dealt: Dealing,
    marks: &mut [u64],
    path: &mut [u8],
    card: &mut [u8],
    deck: &mut [u8],
) -> Dealing
    requires built { Built bytes.now prepared.now × BelowIs bytes.now below.now }
    requires book_over { BookOver (length source.now) book × InOrder (length source.now) book }
    requires entries_parsed { EntriesParsed bytes.now source.now trail.now book }
    requires source_len_bound { (length source.now ≤ 4096) × (length trail.now ≡ length source.now) }
    requires path_room { PathRoom marks.old path.old × (length card.old ≡ 4098) }
    requires dealt_to { DealtTo bytes.now source.now trail.now book deck.old dealt × (length deck.old < 16777216) }
    ensures { DealtOn (length path.old) bytes.now source.now trail.now book deck.new result }
{
    let mut at = dealt.at;
    for i in dealt.entries..book.count {
        if deck.len() < at + Book::CARD {
            return Dealing { entries: i, at };
        }
        let child = book.children[i] as usize;
        let base = book.bases[i] as usize;
        let start = book.starts[i] as usize;
        let end = start + book.lengths[i] as usize;
        let text = &source[start..end];
        let track = &trail[start..end];
        let room = &mut deck[at..];
        let Some(made) = entry_card(
            bytes, prepared, child, base, text, track, below, marks, path, card, room,
        ) else {
            return Dealing { entries: i, at };
        };
        put_head(deck, i, made.print, at);
        at += made.len;
    }
    Dealing {
        entries: book.count,
        at,
    }
}
