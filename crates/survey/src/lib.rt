// The survey: all cuts of a list of jobs, in one pass along its arrivals and its deadlines.
#![tactic(auto)]

pub mod front;
pub mod merge;
