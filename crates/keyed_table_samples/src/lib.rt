//! The keyed table at two kinds of rows.

#![tactic(auto)]

pub mod coins;
pub mod purse;
pub mod seats;
