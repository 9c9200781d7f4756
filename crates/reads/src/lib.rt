// Reads (Rules 1, Ticket 5) at the inner door: each equal to its rule, on a ready state.
// Ported from len_surject, in_same_surject and get_shared of surject_arena.rs (triple_arena 0.15.1, NOTICE).
#![tactic(auto)]

ghost use Rattle.std.specs.Prelude.{◌≡◌, ◌<◌, [], ◌∷◌};
ghost use Rattle.rules.specs.Tables.{frame_width, header_width, cell, class_of, state_of};
ghost use Rattle.rules.specs.Refusals.{outcome, answer, with_live};
ghost use Rattle.rules.specs.Calls.{Ready, step, len_surject, in_same_surject, get_element, get_shared, get_size, get_total, lookup};
ghost use Rattle.rules.specs.Answers.{no_values, one_value, yes_or_no, leaves, said};

use rules::{CLASS, COUNT, FRAME, HEADER, Head, Key, PAYLOAD, Refusal, SIZE, TOTAL, VALUE};

// A field of the key's frame.
fn frame_field(
    head: Head,
    elems: &[u64],
    shared: &[u64],
    key: Key,
    field: u64,
) -> Result<u64, Refusal>
    requires { Ready (state_of head elems.now shared.now) × (field < frame_width) }
    ensures { leaves head elems.now shared.now [] (said one_value result) ≡ outcome (state_of head elems.now shared.now) [] (with_live (state_of head elems.now shared.now) key (λ x. answer (cell frame_width elems.now field x ∷ []) (state_of head elems.now shared.now))) }
{
    let x = slots::find(head, elems, key)?;
    Ok(slots::get(elems, FRAME, field, x))
}

// A field of the header of the key's run.
fn header_field(
    head: Head,
    elems: &[u64],
    shared: &[u64],
    key: Key,
    field: u64,
) -> Result<u64, Refusal>
    requires { Ready (state_of head elems.now shared.now) × (field < header_width) }
    ensures { leaves head elems.now shared.now [] (said one_value result) ≡ outcome (state_of head elems.now shared.now) [] (with_live (state_of head elems.now shared.now) key (λ x. answer (cell header_width shared.now field (class_of elems.now x) ∷ []) (state_of head elems.now shared.now))) }
{
    let x = slots::find(head, elems, key)?;
    let class = slots::get(elems, FRAME, CLASS, x);
    Ok(slots::get(shared, HEADER, field, class))
}

// The number of frames in the key's class.
#[tactic(auto, unfolding(rules::specs::Reads::len_surject))]
pub fn len_surject(head: Head, elems: &[u64], shared: &[u64], key: Key) -> Result<u64, Refusal>
    requires { Ready (state_of head elems.now shared.now) }
    ensures { leaves head elems.now shared.now [] (said one_value result) ≡ step (state_of head elems.now shared.now) [] (len_surject key) }
{
    header_field(head, elems, shared, key, COUNT)
}

// Whether both keys have one class slot.
pub fn in_same_surject(
    head: Head,
    elems: &[u64],
    shared: &[u64],
    j: Key,
    k: Key,
) -> Result<bool, Refusal>
    requires { Ready (state_of head elems.now shared.now) }
    ensures { leaves head elems.now shared.now [] (said yes_or_no result) ≡ step (state_of head elems.now shared.now) [] (in_same_surject j k) }
{
    let x = slots::find(head, elems, j)?;
    let y = slots::find(head, elems, k)?;
    let class = slots::get(elems, FRAME, CLASS, x);
    Ok(class == slots::get(elems, FRAME, CLASS, y))
}

// The payload.
#[tactic(auto, unfolding(rules::specs::Reads::get_element))]
pub fn get(head: Head, elems: &[u64], shared: &[u64], key: Key) -> Result<u64, Refusal>
    requires { Ready (state_of head elems.now shared.now) }
    ensures { leaves head elems.now shared.now [] (said one_value result) ≡ step (state_of head elems.now shared.now) [] (get_element key) }
{
    frame_field(head, elems, shared, key, PAYLOAD)
}

// The class's value.
#[tactic(auto, unfolding(rules::specs::Reads::get_shared))]
pub fn get_shared(head: Head, elems: &[u64], shared: &[u64], key: Key) -> Result<u64, Refusal>
    requires { Ready (state_of head elems.now shared.now) }
    ensures { leaves head elems.now shared.now [] (said one_value result) ≡ step (state_of head elems.now shared.now) [] (get_shared key) }
{
    header_field(head, elems, shared, key, VALUE)
}

// Ticket 6: the frame's size.
#[tactic(auto, unfolding(rules::specs::Reads::get_size))]
pub fn get_size(head: Head, elems: &[u64], shared: &[u64], key: Key) -> Result<u64, Refusal>
    requires { Ready (state_of head elems.now shared.now) }
    ensures { leaves head elems.now shared.now [] (said one_value result) ≡ step (state_of head elems.now shared.now) [] (get_size key) }
{
    frame_field(head, elems, shared, key, SIZE)
}

// Ticket 6: the total of its run.
#[tactic(auto, unfolding(rules::specs::Reads::get_total))]
pub fn get_total(head: Head, elems: &[u64], shared: &[u64], key: Key) -> Result<u64, Refusal>
    requires { Ready (state_of head elems.now shared.now) }
    ensures { leaves head elems.now shared.now [] (said one_value result) ≡ step (state_of head elems.now shared.now) [] (get_total key) }
{
    header_field(head, elems, shared, key, TOTAL)
}

// Ticket 5: whether the key is live, and why not.
pub fn lookup(head: Head, elems: &[u64], shared: &[u64], key: Key) -> Result<(), Refusal>
    requires { Ready (state_of head elems.now shared.now) }
    ensures { leaves head elems.now shared.now [] (said no_values result) ≡ step (state_of head elems.now shared.now) [] (lookup key) }
{
    slots::find(head, elems, key)?;
    Ok(())
}
