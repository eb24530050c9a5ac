// The linked calls: the first clause of demand 3 by their numbers, and document 02, (i): what put counted, and the new source read afresh. As in the crate `demands`, each function makes
// the calls and promises what is said of them, and nothing links these functions.
#![tactic(auto)]

pub mod linked;
pub mod tallied;
