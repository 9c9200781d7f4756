// The script program's lines (Script): found in the input block by block, and obeyed.
#![tactic(auto)]

mod obey;
mod stream;

pub use obey::obey_bytes;
pub use stream::{hold, split_line};
pub use told::Obeyed;
pub use words::{Line, read_line};
