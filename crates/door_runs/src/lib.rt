// New run, insert, union, its undo, and remove at the host's door: the gate, then the call at the inner door. Nothing is required of the caller.
#![tactic(auto, using(gate::proofs::Gates::past))]

ghost use Rattle.std.specs.Prelude.{[]};
ghost use Rattle.rules.specs.Tables.{state_of};
ghost use Rattle.rules.specs.Runs.{key_values};
ghost use Rattle.rules.specs.Answers.{no_values, joined_values, removed_values, after};
ghost use Rattle.rules.specs.Calls.{AtDoor, new_run, insert, union, undo, remove};

use gate::gate;
use rules::{Head, Joined, Key, Refusal, Removed, Step};

// Rules 4: new run.
pub fn insert_surject(
    head: Head,
    elems: &mut [u64],
    shared: &mut [u64],
    payload: u64,
    value: u64,
    size: u32,
) -> Result<Step<Key>, Refusal>
    ensures { AtDoor (state_of head elems.old shared.old) [] (new_run payload value size) (after key_values head result elems.new shared.new []) }
{
    gate(head, elems, shared)?;
    inserts::insert_surject(head, elems, shared, payload, value, size)
}

// Rules 5: insert.
pub fn insert(
    head: Head,
    elems: &mut [u64],
    shared: &mut [u64],
    at: Key,
    payload: u64,
    size: u32,
) -> Result<Step<Key>, Refusal>
    ensures { AtDoor (state_of head elems.old shared.old) [] (insert at payload size) (after key_values head result elems.new shared.new []) }
{
    gate(head, elems, shared)?;
    inserts::insert(head, elems, shared, at, payload, size)
}

// Rules 6: union.
pub fn union(
    head: Head,
    elems: &mut [u64],
    shared: &mut [u64],
    j: Key,
    k: Key,
) -> Result<Step<Joined>, Refusal>
    ensures { AtDoor (state_of head elems.old shared.old) [] (union j k) (after joined_values head result elems.new shared.new []) }
{
    gate(head, elems, shared)?;
    unions::union(head, elems, shared, j, k)
}

// Ticket 7: the last union is taken back.
pub fn undo(head: Head, elems: &mut [u64], shared: &mut [u64]) -> Result<Step<()>, Refusal>
    ensures { AtDoor (state_of head elems.old shared.old) [] undo (after no_values head result elems.new shared.new []) }
{
    gate(head, elems, shared)?;
    undos::undo(head, elems, shared)
}

// Rules 7: remove.
pub fn remove_element(
    head: Head,
    elems: &mut [u64],
    shared: &mut [u64],
    key: Key,
) -> Result<Step<Removed>, Refusal>
    ensures { AtDoor (state_of head elems.old shared.old) [] (remove key) (after removed_values head result elems.new shared.new []) }
{
    gate(head, elems, shared)?;
    removes::remove_element(head, elems, shared, key)
}
