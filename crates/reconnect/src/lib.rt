// The search for the best way back to the tree of pointers, one step at a time.
#![tactic(auto)]

mod backs;
pub mod begin;
mod frontier;
pub mod state;
pub mod step;
