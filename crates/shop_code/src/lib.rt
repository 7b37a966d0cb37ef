// The shop's design code: bending, shear, tension and compression, each a code of its own, and the four joined.

#![tactic(auto)]

pub mod bending;
pub mod compression;
pub mod figures;
pub mod shear;
pub mod shop;
pub mod tension;
mod whole;
