// The entries of an old source: the book of them, and lookups by key.
#![tactic(auto)]

use positions::Set;

pub mod entries;
pub mod lookups;

// The old source's entries: where each stands in the source and where its match's positions begin there, the child node of its match, and whether it was taken. `left` has
// the children of which an entry may be left: no other has one.
#[derive(Clone, Copy)]
pub struct Book {
    pub starts: [u16; Book::ENTRIES],
    pub lengths: [u16; Book::ENTRIES],
    pub bases: [u8; Book::ENTRIES],
    pub children: [u8; Book::ENTRIES],
    pub used: [bool; Book::ENTRIES],
    pub left: Set,
    pub count: usize,
}

// Where an old text stands in the old source, and where its node's positions begin.
#[derive(Clone, Copy)]
pub struct Place {
    pub start: usize,
    pub len: usize,
    pub base: usize,
}

// Where the old text stands that a lookup found, if it found one, and the book without it.
#[derive(Clone, Copy)]
pub struct Lookup {
    pub old: Option<Place>,
    pub book: Book,
}
