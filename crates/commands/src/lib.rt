// The commands of the program `sheet`. What a command prints is made in a buffer first, by functions whose contracts say every byte of it.
// Reading and writing stand apart, since no contract can say what is read or written.
#![tactic(auto)]

mod command;
mod files;
mod replies;
pub mod run;
