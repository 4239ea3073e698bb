// The drive: a carrier's way to the goal over a floor that it feels cell by cell.
#![tactic(auto)]

pub mod begin;
pub mod call;
pub mod drive;
pub mod go;
pub mod look;
pub mod refusal;
pub mod tell;
#[cfg(test)]
mod tests;
pub mod think;
