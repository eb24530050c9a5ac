// What a put does with an accepted and prepared program.
#![tactic(auto)]

pub mod put;
