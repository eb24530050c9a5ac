// Put and create: what a lens writes for a sheet, onto an old text or without one, with the book of old entries.
#![tactic(auto)]

pub mod write;
