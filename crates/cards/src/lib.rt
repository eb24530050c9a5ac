// The card of a key: the key without its trailing spaces, and in front of it its length in two bytes. Beside it goes one byte of a fingerprint, which tells most keys apart.
#![tactic(auto)]

ghost use Rattle.std.specs.Prelude.{◌≡◌, ◌++◌, ◌+◌, ◌≤◌, ◌<◌, length, take, drop};
ghost use Rattle.semantics.specs.Lens.{sheet};
ghost use Rattle.lens.specs.Emitting.{LensNode};
ghost use Rattle.lens.specs.Parsed.{Parsed};
ghost use Rattle.books.specs.Cards.{print_of, two_bytes};
ghost use Rattle.cards.specs.Sealed.{KeyBehind, Sealed, KeyCard};

use lens::Mode;
use lens::read::emit;
use padding::trimmed_length;

// How many bytes a card has, and the byte of its key's fingerprint.
#[derive(Clone, Copy)]
pub struct Card {
    pub len: usize,
    pub print: u8,
}

// A number that is the same for equal texts, and seldom for others.
fn fingerprint(text: &[u8]) -> usize
    ensures { result ≡ print_of text.now }
{
    let mut print = 0;
    for byte in text {
        print = (print * 31153 + usize::from(*byte) + 1) % 65536;
    }
    print
}

// A number, in two bytes of a card.
fn put_two(card: &mut [u8], at: usize, number: usize)
    requires at_in_bounds { at + 2 ≤ length card.old }
    requires number_bound { number < 65536 }
    ensures { card.new ≡ take at card.old ++ (two_bytes number ++ drop (at + 2) card.old) }
{
    card[at] = (number / 256) as u8;
    card[at + 1] = (number % 256) as u8;
}

// The head of a card behind which a key was written, with or without its trailing spaces. A key that has more than 4,096 bytes also without them, as no key of a lookup has, gets a length that no card has.
pub fn seal(card: &mut [u8], wrote: Option<usize>) -> Card
    requires card_len { length card.old ≡ 4098 }
    requires key_behind { KeyBehind card.old wrote }
    ensures { Sealed card.old wrote card.new result }
{
    match wrote {
        Some(n) => {
            let kept = trimmed_length(&card[2..2 + n]);
            let len = 2 + kept;
            let print = fingerprint(&card[2..len]);
            put_two(card, 0, kept);
            Card {
                len,
                print: (print / 256) as u8,
            }
        }
        None => {
            put_two(card, 0, 65535);
            Card { len: 2, print: 0 }
        }
    }
}

// The card of the key of a sheet text, which has at most 4,096 bytes. The path tells how the text is cut.
pub fn card_of(
    bytes: &[u8],
    prepared: &[u64],
    node: usize,
    base: usize,
    text: &[u8],
    path: &[u8],
    card: &mut [u8],
) -> Card
    requires lens_node { LensNode bytes.now prepared.now node }
    requires parsed { Parsed bytes.now node sheet base path.now text.now }
    requires text_len_bound { (length text.now ≤ 4096) × (length card.old ≡ 4098) }
    ensures { KeyCard bytes.now node text.now card.new result }
{
    let room = &mut card[2..];
    let wrote = emit(bytes, prepared, node, Mode::Key, base, text, path, room);
    seal(card, wrote)
}
