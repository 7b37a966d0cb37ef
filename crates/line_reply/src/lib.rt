//! The answer to a line, and its bytes.

#![tactic(auto)]

pub mod line;
pub mod reply;
#[cfg(test)]
mod tests;
