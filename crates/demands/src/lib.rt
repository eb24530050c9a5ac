// Demand 3, with the calls as they are: each function makes the calls of one clause, with buffers of 4,096 bytes of its own, and promises what the
// clause says of them. Nothing links these functions. They tie the clauses to the contracts of the calls: with a weaker contract they could not be
// proved. The clauses all stand in specs/Demands.antt. Here are the functions for those on there and back; those of two crates over this one hand
// back what is declared here: `chosen` has put of chosen entries, and `afresh` the linked calls.
#![tactic(auto)]

use answers::PutAnswer;
use noontrough::{Numbers, PutNumbers};

pub mod trips;

// The sheet that was put together, the answer of put, and its whole buffer afterwards.
#[derive(Clone, Copy)]
pub struct Chosen {
    pub sheet: [u8; 4096],
    pub length: usize,
    pub answer: PutAnswer,
    pub given: [u8; 4096],
}

// The numbers of two linked calls, one after the other, and their whole buffers afterwards.
#[derive(Clone, Copy)]
pub struct LinkedCalls {
    pub first: Numbers,
    pub given: [u8; 4096],
    pub second: PutNumbers,
    pub again: [u8; 4096],
}
