// From the bytes of a site text to the bytes of a filed record.
#![tactic(auto)]

pub mod course;
pub mod fault;
pub mod printing;
mod trip;
