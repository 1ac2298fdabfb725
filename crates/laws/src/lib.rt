// What the calls of a merge mean, and the promise over every list of them.
#![tactic(auto)]

pub mod moves;
pub mod records;
