// New run and insert (Rules 4 and 5) at the inner door: each equal to its rule, on a ready state.
// Ported from insert_surject_within_capacity and insert_within_capacity of surject_arena.rs (triple_arena 0.15.1, NOTICE).
#![tactic(auto)]

ghost use Rattle.std.specs.Prelude.{◌≡◌, [], ◌≤◌};
ghost use Rattle.rules.specs.Tables.{most_bytes, state_of};
ghost use Rattle.rules.specs.Runs.{key_values, begun, inserted};
ghost use Rattle.rules.specs.Calls.{Ready, step, new_run, insert};
ghost use Rattle.rules.specs.Answers.{after};
ghost use Rattle.slots.specs.Asked.{OnLive};
ghost use Rattle.inserts.specs.Asked.{HasRoom, RoomFor};

use rules::{COUNT, HEADER, Head, Key, Refusal, Step, TOTAL};

// A frame and a header are taken: a ring of one, count 1.
fn begin(
    head: Head,
    elems: &mut [u64],
    shared: &mut [u64],
    payload: u64,
    value: u64,
    size: u64,
) -> Head
    requires { RoomFor (state_of head elems.old shared.old) }
    ensures { state_of result elems.new shared.new ≡ begun (state_of head elems.old shared.old) payload value size }
{
    let frames = head.elems;
    let headers = head.shared;
    let x = frames.slot();
    let class = headers.slot();
    let framed = slots::take_frame(head, elems);
    let next = slots::take_header(framed, shared);
    slots::write_frame(elems, x, head.generation, payload, class, x, x, size);
    slots::write_header(shared, class, 1, value, 0, size);
    next
}

// Rules 4, new run.
pub fn insert_surject(
    head: Head,
    elems: &mut [u64],
    shared: &mut [u64],
    payload: u64,
    value: u64,
    size: u32,
) -> Result<Step<Key>, Refusal>
    requires { Ready (state_of head elems.old shared.old) }
    ensures { after key_values head result elems.new shared.new [] ≡ step (state_of head elems.old shared.old) [] (new_run payload value size) }
{
    let frames = head.elems;
    let headers = head.shared;
    if headers.is_full() {
        return Err(Refusal::NoShared);
    }
    if frames.is_full() {
        return Err(Refusal::NoElement);
    }
    let slot = frames.slot();
    let next = begin(head, elems, shared, payload, value, size as u64);
    let key = Key {
        slot,
        generation: head.generation,
    };
    Ok(Step::plain(next, key))
}

// A frame is taken, and stands immediately after the one in `x`.
fn insert_at(
    head: Head,
    elems: &mut [u64],
    shared: &mut [u64],
    x: u64,
    payload: u64,
    size: u64,
) -> Head
    requires { OnLive (state_of head elems.old shared.old) x × HasRoom head.elems × (size ≤ most_bytes) }
    ensures { state_of result elems.new shared.new ≡ inserted (state_of head elems.old shared.old) x payload size }
{
    let frames = head.elems;
    let y = frames.slot();
    let next = slots::take_frame(head, elems);
    let class = slots::splice(elems, x, y, head.generation, payload, size);
    let count = slots::get(shared, HEADER, COUNT, class);
    let total = slots::get(shared, HEADER, TOTAL, class);
    slots::recount(shared, class, count + 1, total + size);
    next
}

// Rules 5, insert; at a sealed run Ticket 1's refusal.
pub fn insert(
    head: Head,
    elems: &mut [u64],
    shared: &mut [u64],
    at: Key,
    payload: u64,
    size: u32,
) -> Result<Step<Key>, Refusal>
    requires { Ready (state_of head elems.old shared.old) }
    ensures { after key_values head result elems.new shared.new [] ≡ step (state_of head elems.old shared.old) [] (insert at payload size) }
{
    let x = slots::find(head, elems, at)?;
    if slots::is_sealed(head, elems, shared, x) {
        return Err(Refusal::Sealed);
    }
    let frames = head.elems;
    if frames.is_full() {
        return Err(Refusal::NoElement);
    }
    let slot = frames.slot();
    let next = insert_at(head, elems, shared, x, payload, size as u64);
    let key = Key {
        slot,
        generation: head.generation,
    };
    Ok(Step::plain(next, key))
}
