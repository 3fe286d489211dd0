// The book: jobs that are entered, held, taken, released, struck, planned and closed, and what the accounts owe.
#![tactic(auto)]

pub mod book;
pub mod closing;
pub mod entry;
pub mod holding;
pub mod planning;
pub mod questions;
pub mod slip;
