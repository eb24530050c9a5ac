// Put and create where a node asks for no entry: what they write without the book, and how many matches they meet.
#![tactic(auto)]

use books::Book;

pub mod plain;

// What was written so far, the book that is left, and how many matches were met.
#[derive(Clone, Copy)]
pub struct Done {
    pub wrote: Option<usize>,
    pub book: Book,
    // the matches that were met so far, modulo 2^64
    pub met: usize,
}
