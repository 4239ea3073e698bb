// Site texts: the reader, and what can be wrong with one.
#![tactic(auto)]

pub mod fault;
pub mod site;
