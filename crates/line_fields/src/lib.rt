//! Fields between tabs, and the numbers that they write, out of plain bytes.

#![tactic(auto)]

pub mod fields;
pub mod numbers;
