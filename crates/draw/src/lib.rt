// From the corners of the path to the segments of the plan.
#![tactic(auto)]

pub mod draw;
pub mod drawing;
mod lane;
mod put;
