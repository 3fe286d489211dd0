// Plans and refusals as text.
#![tactic(auto)]

pub mod plan;
pub mod refused;
