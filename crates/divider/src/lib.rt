// Division by the generator polynomial, in packed words: remainders, the generator and its table, check symbols, values
// at the roots.
#![tactic(auto)]

mod division;
pub mod evaluation;
pub mod generator;
mod multiples;
mod packed;
pub mod reed_solomon;
