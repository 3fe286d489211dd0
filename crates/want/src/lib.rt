// Want of speed: whether some run of jobs has more work than the processor can do in its time.
#![tactic(auto)]

pub mod search;
