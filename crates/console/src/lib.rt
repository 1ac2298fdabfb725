// What the program reads and writes, as functions on values.
#![tactic(auto)]

pub mod command_line;
pub mod hex;
pub mod inspect;
