// What the test programs read and print: standard input piece by piece, outputs that show what is written to them, the
// fields of a line and a solver's state. What is printed is first appended to a text that is lent, which the promises
// speak of; `output::write` writes it.
#![tactic(auto)]

pub mod input;
pub mod output;
pub mod print;
pub mod state;
