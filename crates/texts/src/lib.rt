// Texts: their lines, words and fields, their first lines, and their faults.
#![tactic(auto)]

pub mod fault;
pub mod field;
pub mod heading;
pub mod lines;
pub mod word;
