// Calls by plain numbers, answers and faults, and the records that a ledger speaks of; the ledger itself is in specs/.

#![tactic(auto)]

pub mod answer;
pub mod call;
pub mod culm;
pub mod fault;
pub mod member;
pub mod runs;
