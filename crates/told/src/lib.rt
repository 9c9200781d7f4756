// What the script program prints of an answer (Script): the answers in words and decimals, written into a lent buffer.
#![tactic(auto)]

pub mod answers;
pub mod text;

pub use answers::{Answer, Obeyed, put_refusal, put_ring, tell};
pub use text::put_text;
