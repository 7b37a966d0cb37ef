// Design codes: what a code is, what every code owes, and two codes joined.

#![tactic(auto)]

pub mod appraisal;
pub mod code;
pub mod joined;
pub mod verdict;
