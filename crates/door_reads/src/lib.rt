// Reads, sets and the exchange at the host's door: the gate, then the call at the inner door. Nothing is required of the caller.
#![tactic(auto, using(gate::proofs::Gates::past))]

ghost use Rattle.std.specs.Prelude.{[]};
ghost use Rattle.rules.specs.Tables.{state_of};
ghost use Rattle.rules.specs.Answers.{no_values, one_value, yes_or_no, old_values, leaves, said, after};
ghost use Rattle.rules.specs.Calls.{AtDoor, len_surject, in_same_surject, get_element, get_shared, get_size, get_total, lookup, set_element, set_shared, exchange};

use gate::gate;
use rules::{Head, Key, Refusal, Step};

// Rules 1, reads and sets: the size of a class.
pub fn len_surject(head: Head, elems: &[u64], shared: &[u64], key: Key) -> Result<u64, Refusal>
    ensures { AtDoor (state_of head elems.now shared.now) [] (len_surject key) (leaves head elems.now shared.now [] (said one_value result)) }
{
    gate(head, elems, shared)?;
    reads::len_surject(head, elems, shared, key)
}

// Whether two keys are of one class.
pub fn in_same_surject(
    head: Head,
    elems: &[u64],
    shared: &[u64],
    j: Key,
    k: Key,
) -> Result<bool, Refusal>
    ensures { AtDoor (state_of head elems.now shared.now) [] (in_same_surject j k) (leaves head elems.now shared.now [] (said yes_or_no result)) }
{
    gate(head, elems, shared)?;
    reads::in_same_surject(head, elems, shared, j, k)
}

// The payload.
pub fn get(head: Head, elems: &[u64], shared: &[u64], key: Key) -> Result<u64, Refusal>
    ensures { AtDoor (state_of head elems.now shared.now) [] (get_element key) (leaves head elems.now shared.now [] (said one_value result)) }
{
    gate(head, elems, shared)?;
    reads::get(head, elems, shared, key)
}

// The class's value.
pub fn get_shared(head: Head, elems: &[u64], shared: &[u64], key: Key) -> Result<u64, Refusal>
    ensures { AtDoor (state_of head elems.now shared.now) [] (get_shared key) (leaves head elems.now shared.now [] (said one_value result)) }
{
    gate(head, elems, shared)?;
    reads::get_shared(head, elems, shared, key)
}

// Ticket 6: the frame's size.
pub fn get_size(head: Head, elems: &[u64], shared: &[u64], key: Key) -> Result<u64, Refusal>
    ensures { AtDoor (state_of head elems.now shared.now) [] (get_size key) (leaves head elems.now shared.now [] (said one_value result)) }
{
    gate(head, elems, shared)?;
    reads::get_size(head, elems, shared, key)
}

// Ticket 6: the total of its run.
pub fn get_total(head: Head, elems: &[u64], shared: &[u64], key: Key) -> Result<u64, Refusal>
    ensures { AtDoor (state_of head elems.now shared.now) [] (get_total key) (leaves head elems.now shared.now [] (said one_value result)) }
{
    gate(head, elems, shared)?;
    reads::get_total(head, elems, shared, key)
}

// Ticket 5: whether the key is live, and why not.
pub fn lookup(head: Head, elems: &[u64], shared: &[u64], key: Key) -> Result<(), Refusal>
    ensures { AtDoor (state_of head elems.now shared.now) [] (lookup key) (leaves head elems.now shared.now [] (said no_values result)) }
{
    gate(head, elems, shared)?;
    reads::lookup(head, elems, shared, key)
}

// A new payload; the answer is the old one.
pub fn set(
    head: Head,
    elems: &mut [u64],
    shared: &[u64],
    key: Key,
    payload: u64,
) -> Result<Step<u64>, Refusal>
    ensures { AtDoor (state_of head elems.old shared.now) [] (set_element key payload) (after one_value head result elems.new shared.now []) }
{
    gate(head, elems, shared)?;
    sets::set(head, elems, shared, key, payload)
}

// A new value of the class; the answer is the old one.
pub fn set_shared(
    head: Head,
    elems: &[u64],
    shared: &mut [u64],
    key: Key,
    value: u64,
) -> Result<Step<u64>, Refusal>
    ensures { AtDoor (state_of head elems.now shared.old) [] (set_shared key value) (after one_value head result elems.now shared.new []) }
{
    gate(head, elems, shared)?;
    sets::set_shared(head, elems, shared, key, value)
}

// Rules 13: four-key exchange.
pub fn exchange_disjoint_shared(
    head: Head,
    elems: &[u64],
    shared: &mut [u64],
    keys: [Key; 4],
    values: [u64; 4],
) -> Result<Step<[u64; 4]>, Refusal>
    ensures { AtDoor (state_of head elems.now shared.old) [] (exchange keys values) (after old_values head result elems.now shared.new []) }
{
    gate(head, elems, shared)?;
    exchange::exchange_disjoint_shared(head, elems, shared, keys, values)
}
