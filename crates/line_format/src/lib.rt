//! A line of bytes: its verb, its fields with their places, and the call by plain numbers that it asks for.

#![tactic(auto)]

pub mod fault;
pub mod line;
pub mod request;
#[cfg(test)]
mod tests;
pub mod verb;
