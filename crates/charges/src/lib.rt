// Charges: what each account has to pay, and the settling of a plan.
#![tactic(auto)]

pub mod charges;
pub mod cursor;
pub mod settle;
pub mod table;
