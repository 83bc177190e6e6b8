// Blocks of bytes: subwords of a block, added to a word, its nested words, the syndromes of its subwords, the codeword
// check, and its data. What a block of a profile is, and how a subword stands in it: specs/Parts.antt. Tables of
// syndromes: specs/Table.antt.
#![tactic(auto)]

pub mod accumulate;
pub mod codeword;
pub mod gather;
mod nested;
pub mod part;
pub mod received;
