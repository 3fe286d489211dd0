// The record of a plan as bytes: writing it, reading it back, and the step at a tick.
#![tactic(auto)]

mod check;
pub mod machine;
mod numbers;
pub mod read;
pub mod rows;
mod segments;
pub mod write;
