// Numbers as text: plain decimal without needless zeros.
#![tactic(auto)]

pub mod pen;
pub mod read;
