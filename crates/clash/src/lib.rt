// Definitions and theorems only, in specs/: this crate has no code.
#![tactic(auto)]
