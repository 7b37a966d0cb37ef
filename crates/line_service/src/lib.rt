//! Lines out of bytes that come in chunks, each answered by a responder.

#![tactic(auto)]

pub mod responder;
pub mod service;
pub mod whole;

/// How many bytes a line may have, byte 10 not counted.
pub const LINE_LIMIT: usize = 80;

#[cfg(test)]
mod tests;
