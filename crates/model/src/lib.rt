// The plain values that every layer speaks of. What they mean is in specs/.
#![tactic(auto)]

pub mod cut;
pub mod job;
pub mod point;
pub mod segment;
pub mod step;
