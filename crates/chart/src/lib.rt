// Plans as lines of text and as a picture.
#![tactic(auto)]

pub mod lines;
pub mod picture;
