// Why a call is stopped: one case for each number, with what it names.
#![tactic(auto)]

pub mod number;
pub mod refusal;
pub mod shown;
pub mod term;
