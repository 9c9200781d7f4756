// The entries that a host calls (include/doorsedge.h): each takes the lent head apart, calls the door, and, if it accepted, stores the head that it hands back.
#![tactic(auto)]

mod figures;
mod files;
mod frames;
mod in_place;
mod kept_order;
mod read_calls;
mod seal_calls;
mod set_calls;
mod two;
mod whole;
