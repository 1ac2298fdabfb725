// Faults, pixel kinds, and rows of pixels of any kind.
#![tactic(auto)]

pub mod cover;
pub mod cover_kind;
pub mod examples;
pub mod fault;
pub mod fault_text;
pub mod kind;
pub mod named;
pub mod near;
pub mod near_kind;
pub mod rows;
#[cfg(test)]
mod tests;
