// The sweep: one pass along the cuts that finds the corners of the path.
#![tactic(auto)]

pub mod chain;
mod pass;
pub mod sweep;
pub mod tighten;
pub mod wall;
pub mod way;
