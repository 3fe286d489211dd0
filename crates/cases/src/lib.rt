// Cases with known answers, tried on the code. Nothing here is for use by other crates.
#![tactic(auto)]

#[cfg(test)]
mod answers;
#[cfg(test)]
mod formulas;
#[cfg(test)]
mod ladders;
#[cfg(test)]
mod paths;
