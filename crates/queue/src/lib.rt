// The queue of standing jobs, which keeps its order in its type.
#![tactic(auto)]

pub mod calls;
pub mod queue;
pub mod standing;
