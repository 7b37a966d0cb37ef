// The stock of culms over the rows that a caller lends: rows with a mark, moves of culms, gathering and counting.

#![tactic(auto)]

pub mod aside;
pub mod event;
pub mod gather;
pub mod row;
pub mod stock;
