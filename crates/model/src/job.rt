// One report to be written.

// A job: its data is in at time `arrival`, it is due at time `deadline`, it takes `work` units, and `account` pays for it.
#[derive(Clone, Copy, PartialEq, Eq, Debug)]
pub struct Job {
    pub arrival: u64,
    pub deadline: u64,
    pub work: u64,
    pub account: u64,
}
