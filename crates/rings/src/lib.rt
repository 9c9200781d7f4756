// Calls that go once round a run's ring, at the inner door (Module 6): list and remove shared, each equal to its rule.
// Ported from iter_surject of surject_iterators.rs and remove_shared of surject_arena.rs (triple_arena 0.15.1, NOTICE).
#![tactic(auto)]

pub mod frees;
pub mod lists;

pub use frees::remove_shared;
pub use lists::list;
