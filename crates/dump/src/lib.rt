// Reads dumps of pictures. A record's body is handed out as a part of the dump; nothing is copied or allocated.
#![tactic(auto)]

mod check;
pub mod dumps;
mod order;
pub mod pixels;
pub mod reader;
mod record;
pub mod stage;
mod walk;
pub mod words;
