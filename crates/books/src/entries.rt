// The book: made empty, and with one more entry.
ghost use Rattle.std.specs.Prelude.{◌≡◌, ◌<◌};
ghost use Rattle.books.specs.Listed.{Sized, Entered};

use crate::Book;
use positions::Set;
use table::Table;

impl Book {
    // 'The book holds at most 256 entries'
    pub const ENTRIES: usize = 256;

    // The deck that entries are looked up in: the old source, then its path, a byte of each key's fingerprint, where each card stands, and the cards.
    pub const PATH: usize = Table::TEXT;

    pub const PRINTS: usize = Book::PATH + Table::TEXT;

    pub const PLACES: usize = Book::PRINTS + Book::ENTRIES;

    pub const CARDS: usize = Book::PLACES + 3 * Book::ENTRIES;

    // A card: what is left of a key without its trailing spaces, and in front of it the length of that in two bytes.
    pub const CARD: usize = Table::TEXT + 2;

    pub fn empty() -> Book
        ensures { (result.count ≡ 0) × Sized result }
    {
        Book {
            starts: [0u16; Book::ENTRIES],
            lengths: [0u16; Book::ENTRIES],
            bases: [0u8; Book::ENTRIES],
            children: [0u8; Book::ENTRIES],
            used: [false; Book::ENTRIES],
            left: Set::empty(),
            count: 0,
        }
    }

    // One more entry, behind the others.
    pub fn added(mut self, start: usize, len: usize, base: usize, child: usize) -> Book
        requires count_bound { self.count < 256 }
        requires start_bound { (start < 65536) × (len < 65536) × (base < 256) × (child < 128) }
        ensures { Entered self start len base child result }
    {
        let count = self.count;
        self.starts[count] = start as u16;
        self.lengths[count] = len as u16;
        self.bases[count] = base as u8;
        self.children[count] = child as u8;
        self.used[count] = false;
        self.left = self.left.with(child);
        self.count = count + 1;
        self
    }
}
