// Exact comparison of products, and the laws of the fractions that the specifications are written in.

#![tactic(auto)]

pub mod laws;
pub mod wide;
