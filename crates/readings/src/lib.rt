// What Get and Create do with an accepted and prepared program, and what the line of `lenscheck` takes of it.
#![tactic(auto)]

pub mod line;
pub mod reading;
