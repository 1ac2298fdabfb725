// The program's commands: each asks the library, and prints what it answers.
#![tactic(auto)]

mod form;
pub mod inspects;
pub mod links;
pub mod plans;
