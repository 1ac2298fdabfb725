// Plans: who merges what with whom, round by round.
#![tactic(auto)]

mod counts;
pub mod examples;
mod factors;
mod listing;
pub mod pieces;
pub mod plan;
pub mod radix;
pub mod radix_plan;
pub mod runs;
pub mod sending;
mod step;
pub mod swap;
pub mod swap_plan;
#[cfg(test)]
mod tests;
pub mod text;
pub mod transfer;
pub mod transfers;
