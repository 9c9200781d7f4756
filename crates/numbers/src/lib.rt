// Numbers, as a host has them: the one of a refusal, and those of an answer. Those of a head, which Numbers in specs says too, are read and stored in crate heads.
#![tactic(auto)]

pub mod answers;
