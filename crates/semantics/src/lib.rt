// Definitions only, in specs/: this crate has no code.
#![tactic(auto)]
