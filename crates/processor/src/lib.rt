// Processors: the interface through which every planner call sees one, and two that keep its rules.
#![tactic(auto)]

mod check;
pub mod formula;
pub mod formula_kind;
pub mod ladder;
pub mod ladder_kind;
pub mod make;
pub mod processor;
pub mod rule;
