// The board of a drive: a record for each cell, and what a look does to the records around one.
#![tactic(auto)]

pub mod around;
pub mod square;
