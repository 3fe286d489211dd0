// Sheets: a ladder and jobs as text, and the plan drawn from them as text.
#![tactic(auto)]

pub mod drawing;
pub mod fault;
pub mod output;
mod page;
mod reading;
pub mod refused;
mod rows;
pub mod shown;
