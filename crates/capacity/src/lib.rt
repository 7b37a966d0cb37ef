// Capacities of a bundle of culms: exact in the specifications, from below in whole numbers, and told as pairs.
// Capacities see only the terms of the culms, and only the terms see the readings.

#![tactic(auto)]

pub mod figures;
mod shares;
pub mod strengths;
pub mod terms;
#[cfg(test)]
mod tests;
pub mod told;
pub mod units;
