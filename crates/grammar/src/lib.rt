// The lines of a sheet: where they end, and what each says.
#![tactic(auto)]

pub mod lines;
pub mod row;
pub mod rows;
