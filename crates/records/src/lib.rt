// Filed records: reading them line by line.
#![tactic(auto)]

pub mod fault;
pub mod line;
pub mod reader;
#[cfg(test)]
mod tests;
pub mod whole;
