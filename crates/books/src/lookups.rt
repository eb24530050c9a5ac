// Lookups in the book: the first unused entry for a key. The deck has for each entry one byte of its key's fingerprint, and where the card of its key stands.
ghost use Rattle.std.specs.Prelude.{◌≡◌, true, not, ◌&&◌, ◌+◌, ◌*◌, ◌≤◌, ◌<◌, eqb, length, drop};
ghost use Rattle.semantics.specs.Text.{Text};
ghost use Rattle.books.specs.Cards.{card_of, print_byte};
ghost use Rattle.books.specs.Looking.{BookOver, card_place, CardsFit, HasCard, Answers, Found, NoneLeft, LookedUp};

use crate::{Book, Lookup, Place};

// Where the card of entry i stands.
fn card_place(deck: &[u8], i: usize) -> usize
    requires { (i < 256) × (9216 ≤ length deck.now) }
    ensures { result ≡ card_place deck.now i }
{
    let j = Book::PLACES + 3 * i;
    deck[j] as usize * 65536 + deck[j + 1] as usize * 256 + deck[j + 2] as usize
}

// Whether entry i has that card.
fn has_card(deck: &[u8], i: usize, card: &[u8]) -> bool
    requires { (i < 256) × (9216 ≤ length deck.now) }
    ensures { HasCard deck.now i card.now result }
{
    let at = card_place(deck, i);
    at <= deck.len() && deck[at..].starts_with(card)
}

// Whether an entry is unused and of that child.
fn waits(used: bool, own: usize, child: usize) -> bool
    ensures { result ≡ (not used && eqb own child) }
{
    !used && own == child
}

// Whether entry i, taken or not and of its own child, is unused, of that child, and has that card.
fn answers(used: bool, own: usize, child: usize, deck: &[u8], i: usize, card: &[u8]) -> bool
    requires { (i < 256) × (9216 ≤ length deck.now) }
    ensures { Answers used own child deck.now i card.now result }
{
    waits(used, own, child) && has_card(deck, i, card)
}

// The first unused entry of that child with that card, of which `print` is the fingerprint's byte.
fn find(
    used: &[bool],
    children: &[u8],
    count: usize,
    child: usize,
    print: u8,
    card: &[u8],
    deck: &[u8],
) -> Option<usize>
    requires { (count ≤ 256) × (length used.now ≡ 256) × (length children.now ≡ 256) × (9216 ≤ length deck.now) }
    ensures { Found used.now children.now count child print card.now deck.now result }
{
    for i in 0..count {
        if deck[Book::PRINTS + i] == print
            && answers(used[i], children[i] as usize, child, deck, i, card)
        {
            return Some(i);
        }
    }
    None
}

// Whether no entry of that child is unused.
fn none_left(used: &[bool], children: &[u8], count: usize, child: usize) -> bool
    requires { (count ≤ 256) × (length used.now ≡ 256) × (length children.now ≡ 256) }
    ensures { NoneLeft used.now children.now count child result }
{
    for i in 0..count {
        if waits(used[i], children[i] as usize, child) {
            return false;
        }
    }
    true
}

impl Book {
    // The first unused entry of the old source that has that child and the key of that card, and the book without it.
    pub fn take(mut self, child: usize, print: u8, card: &[u8], deck: &[u8]) -> Lookup
        requires book_over { BookOver 4096 self × (child < 128) }
        requires in_bounds { 9216 ≤ length deck.now }
        ensures { (bytes key : Text) → card.now ≡ card_of key → print ≡ print_byte key → length key ≤ 4096 → CardsFit bytes deck.now self → LookedUp bytes deck.now child key self result }
    {
        if let Some(i) = find(
            &self.used,
            &self.children,
            self.count,
            child,
            print,
            card,
            deck,
        ) {
            let place = Place {
                start: self.starts[i] as usize,
                len: self.lengths[i] as usize,
                base: self.bases[i] as usize,
            };
            self.used[i] = true;
            return Lookup {
                old: Some(place),
                book: self,
            };
        }
        if none_left(&self.used, &self.children, self.count, child) {
            self.left = self.left.without(child);
        }
        Lookup {
            old: None,
            book: self,
        }
    }
}
