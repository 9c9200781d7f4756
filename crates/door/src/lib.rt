// The host's door: every call for any tables, head and key; refusals 1 and 2 come first.
#![tactic(auto)]

pub use door_files::{read_file, write_file};
pub use door_reads::{
    exchange_disjoint_shared, get, get_shared, get_size, get_total, in_same_surject, len_surject,
    lookup, set, set_shared,
};
pub use door_rings::{drain, drain_all, list, remove_shared, seal};
pub use door_runs::{insert, insert_surject, remove_element, undo, union};
pub use door_two::{clone_from, transfer_canonical};
pub use door_whole::{clear, compress_canonical, compress_with, fresh};
pub use gate::check;
