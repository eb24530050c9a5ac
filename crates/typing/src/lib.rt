// The typing questions, decided on the automata, and the second round, which asks them of every node.
#![tactic(auto)]

mod questions;
pub mod round;
