// Links that keep their boxes in lent words.
#![tactic(auto)]

pub mod cell;
pub mod cell_link;
mod entries;
pub mod line;
pub mod line_link;
mod messages;
mod sizes;
mod tests;
