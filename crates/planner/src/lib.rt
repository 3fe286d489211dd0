// The planner: from a queue of jobs and a processor to the plan of least energy.
#![tactic(auto)]

pub mod draft;
pub mod path;
pub mod plan;
pub mod work;
