// Filed records: writing them, line by line, into a lent buffer.
#![tactic(auto)]

pub mod fault;
pub mod pen;
pub mod write;
