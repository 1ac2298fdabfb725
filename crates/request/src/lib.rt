// Requests: the words of a line, the numbers among them, and what they ask for.
#![tactic(auto)]

pub mod links;
pub mod numbers;
pub mod plans;
pub mod requests;
pub mod words;
