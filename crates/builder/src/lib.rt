// Builds the position automaton of every node and side into the prepared program.
#![tactic(auto)]

mod build;
pub mod program;
mod rows;
