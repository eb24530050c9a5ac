// Pairs of positions that two readings of a text can come to, by their distance from the end. A pair is early while both readings are in
// the part that is cut off, and late behind the first cut. Early pairs have rows 0 to 127, late ones rows 128 to 255; the column is the second position.
#![tactic(auto)]

pub mod layers;
pub mod patches;
pub mod queue;
pub mod searches;
