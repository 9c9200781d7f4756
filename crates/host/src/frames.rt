// Frames in and out.
ghost use Rattle.std.specs.Prelude.{◌≡◌, []};
ghost use Rattle.rules.specs.Calls.{new_run, insert, union, undo, remove, remove_shared};
ghost use Rattle.numbers.specs.Numbers.{values, values_over, removal_numbers};
ghost use Rattle.promises.specs.Host.{key_of, AtHost, left};

use heads::{finish, unpack};
use rules::Key;

// Rules 4: begins a run.
#[unsafe(no_mangle)]
pub extern "C" fn doorsedge_insert_surject(
    head: &mut [u64; 13],
    elems: &mut [u64],
    shared: &mut [u64],
    payload: u64,
    value: u64,
    size: u32,
    out: &mut [u64; 2],
) -> u64
    ensures { AtHost (new_run payload value size) values head.old elems.old shared.old [] out.old (left result head.new elems.new shared.new [] out.new) }
{
    let step = door::insert_surject(unpack(*head), elems, shared, payload, value, size);
    finish(step, head, out)
}

// Rules 5: puts a frame in, immediately after the key's.
#[unsafe(no_mangle)]
pub extern "C" fn doorsedge_insert(
    head: &mut [u64; 13],
    elems: &mut [u64],
    shared: &mut [u64],
    slot: u64,
    generation: u64,
    payload: u64,
    size: u32,
    out: &mut [u64; 2],
) -> u64
    ensures { AtHost (insert (key_of slot generation) payload size) values head.old elems.old shared.old [] out.old (left result head.new elems.new shared.new [] out.new) }
{
    let key = Key { slot, generation };
    let step = door::insert(unpack(*head), elems, shared, key, payload, size);
    finish(step, head, out)
}

// Rules 6: joins two runs.
#[unsafe(no_mangle)]
pub extern "C" fn doorsedge_union(
    head: &mut [u64; 13],
    elems: &mut [u64],
    shared: &mut [u64],
    slot0: u64,
    generation0: u64,
    slot1: u64,
    generation1: u64,
    out: &mut [u64; 4],
) -> u64
    ensures { AtHost (union (key_of slot0 generation0) (key_of slot1 generation1)) values head.old elems.old shared.old [] out.old (left result head.new elems.new shared.new [] out.new) }
{
    let j = Key {
        slot: slot0,
        generation: generation0,
    };
    let k = Key {
        slot: slot1,
        generation: generation1,
    };
    let step = door::union(unpack(*head), elems, shared, j, k);
    finish(step, head, out)
}

// Ticket 7: takes the last union back.
#[unsafe(no_mangle)]
pub extern "C" fn doorsedge_undo(head: &mut [u64; 13], elems: &mut [u64], shared: &mut [u64]) -> u64
    ensures { AtHost undo values head.old elems.old shared.old [] [] (left result head.new elems.new shared.new [] []) }
{
    let step = door::undo(unpack(*head), elems, shared);
    finish(step, head, &mut [])
}

// Rules 7: removes a frame.
#[unsafe(no_mangle)]
pub extern "C" fn doorsedge_remove_element(
    head: &mut [u64; 13],
    elems: &mut [u64],
    shared: &mut [u64],
    slot: u64,
    generation: u64,
    out: &mut [u64; 4],
) -> u64
    ensures { AtHost (remove (key_of slot generation)) removal_numbers head.old elems.old shared.old [] out.old (left result head.new elems.new shared.new [] out.new) }
{
    let key = Key { slot, generation };
    let removed = door::remove_element(unpack(*head), elems, shared, key);
    finish(removed, head, out)
}

// Rules 8: removes the key's whole run.
#[unsafe(no_mangle)]
pub extern "C" fn doorsedge_remove_shared(
    head: &mut [u64; 13],
    elems: &mut [u64],
    shared: &mut [u64],
    slot: u64,
    generation: u64,
    out: &mut [u64; 2],
) -> u64
    ensures { AtHost (remove_shared (key_of slot generation)) values_over head.old elems.old shared.old [] out.old (left result head.new elems.new shared.new [] out.new) }
{
    let key = Key { slot, generation };
    let step = door::remove_shared(unpack(*head), elems, shared, key);
    finish(step, head, out)
}
