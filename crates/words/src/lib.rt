// A line of the script program (Script), read: its words, the numbers among them, and what it asks for.
#![tactic(auto)]

pub mod read;
pub mod words;

pub use read::{Line, read_line};
pub use words::find;
