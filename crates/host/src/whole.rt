// All at once: fresh, the check, drains, clear, compression.
ghost use Rattle.std.specs.Prelude.{◌≡◌, []};
ghost use Rattle.rules.specs.Calls.{check, drain, drain_all, clear, compress};
ghost use Rattle.numbers.specs.Numbers.{values, values_over};
ghost use Rattle.promises.specs.Host.{key_of, AtHost, left, is_set, AtFresh};

use heads::{finish, unpack};
use numbers::answers::told;
use rules::Key;

// Rules 2: empty tables of these capacities; the head and the tables may hold anything.
#[unsafe(no_mangle)]
pub extern "C" fn doorsedge_fresh(
    head: &mut [u64; 13],
    frames: u64,
    headers: u64,
    elems: &mut [u64],
    shared: &mut [u64],
) -> u64
    ensures { AtFresh frames headers head.old elems.old shared.old (left result head.new elems.new shared.new [] []) }
{
    let step = door::fresh(unpack(*head), frames, headers, elems, shared);
    finish(step, head, &mut [])
}

// Rules 1, the check: whether head and tables are a sound state.
#[unsafe(no_mangle)]
pub extern "C" fn doorsedge_check(head: &[u64; 13], elems: &[u64], shared: &[u64]) -> u64
    ensures { AtHost check values head.now elems.now shared.now [] [] (left result head.now elems.now shared.now [] []) }
{
    let answer = door::check(unpack(*head), elems, shared);
    told(answer, &mut [])
}

// Rules 12: empty tables, the generation one higher.
#[unsafe(no_mangle)]
pub extern "C" fn doorsedge_clear(
    head: &mut [u64; 13],
    elems: &mut [u64],
    shared: &mut [u64],
    out: &mut [u64; 1],
) -> u64
    ensures { AtHost (clear) values_over head.old elems.old shared.old [] out.old (left result head.new elems.new shared.new [] out.new) }
{
    let step = door::clear(unpack(*head), elems, shared);
    finish(step, head, out)
}

// Rules 14: moves all frames down, runs in canonical order.
#[unsafe(no_mangle)]
pub extern "C" fn doorsedge_compress_canonical(
    head: &mut [u64; 13],
    elems: &mut [u64],
    shared: &mut [u64],
    reset: u64,
    scratch: &mut [u64],
    out: &mut [u64; 1],
) -> u64
    ensures { AtHost (compress (is_set reset)) values_over head.old elems.old shared.old scratch.old out.old (left result head.new elems.new shared.new scratch.new out.new) }
{
    let step = door::compress_canonical(unpack(*head), elems, shared, scratch, reset != 0);
    finish(step, head, out)
}

// Rules 10: removes the run frame by frame, a record for each.
#[unsafe(no_mangle)]
pub extern "C" fn doorsedge_drain(
    head: &mut [u64; 13],
    elems: &mut [u64],
    shared: &mut [u64],
    slot: u64,
    generation: u64,
    records: &mut [u64],
    out: &mut [u64; 1],
) -> u64
    ensures { AtHost (drain (key_of slot generation)) values head.old elems.old shared.old records.old out.old (left result head.new elems.new shared.new records.new out.new) }
{
    let key = Key { slot, generation };
    let step = door::drain(unpack(*head), elems, shared, key, records);
    finish(step, head, out)
}

// Rules 11: drains every run, then clears.
#[unsafe(no_mangle)]
pub extern "C" fn doorsedge_drain_all(
    head: &mut [u64; 13],
    elems: &mut [u64],
    shared: &mut [u64],
    records: &mut [u64],
    out: &mut [u64; 1],
) -> u64
    ensures { AtHost (drain_all) values head.old elems.old shared.old records.old out.old (left result head.new elems.new shared.new records.new out.new) }
{
    let step = door::drain_all(unpack(*head), elems, shared, records);
    finish(step, head, out)
}
