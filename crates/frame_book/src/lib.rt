// The book: grades, classes, culms, tickets and members over two tables that a caller lends, and its fifteen calls.

#![tactic(auto)]

mod appraising;
pub mod book;
pub mod ticket;
