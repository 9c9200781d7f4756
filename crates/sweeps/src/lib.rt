// Drain all (Rules 11) at the inner door, in one pass over the slots: equal to its rule, on a ready state.
// Ported from drain_combined of surject_iterators.rs (triple_arena 0.15.1, NOTICE).
#![tactic(auto)]

ghost use Rattle.std.specs.Prelude.{◌≡◌, ◌*◌, ◌≤◌, length};
ghost use Rattle.rules.specs.Tables.{state_of, size_at};
ghost use Rattle.rules.specs.Drains.{record_width};
ghost use Rattle.rules.specs.Calls.{Ready, step, drain_all};
ghost use Rattle.rules.specs.Answers.{one_value, after};
ghost use Rattle.sweeps.specs.Sweep.{Visits, Emptied};
ghost use Rattle.drains.specs.Answered.{Drained};

use drains::{RECORD_WIDTH, drain_run};
use rings::lists::size_at;
use rules::{FRAME, GENERATION, Head, Refusal, Step};
use wipes::clear;

// The run of a live slot goes, with its records past the first `written` places.
fn drain_slot(
    head: Head,
    elems: &mut [u64],
    shared: &mut [u64],
    slot: u64,
    out: &mut [u64],
    written: u64,
) -> Head
    requires { Visits (state_of head elems.old shared.old) slot out.old written }
    ensures { Drained (state_of head elems.old shared.old) (size_at (state_of head elems.old shared.old) slot) slot out.old written result elems.new shared.new out.new }
{
    let generation = slots::get(elems, FRAME, GENERATION, slot);
    if generation == 0 {
        return head;
    }
    let size = size_at(head, elems, shared, slot);
    drain_run(head, elems, shared, size, slot, out, written)
}

// Each slot is met once, in ascending order: what lies below it is free by then.
fn drain_slots(head: Head, elems: &mut [u64], shared: &mut [u64], out: &mut [u64]) -> Head
    requires { Ready (state_of head elems.old shared.old) × (head.elems.live * record_width ≤ length out.old) }
    ensures { Emptied (state_of head elems.old shared.old) out.old result elems.new shared.new out.new }
{
    let frames = head.elems.live;
    let mut next = head;
    for slot in 1..=head.elems.extent {
        let written = frames - next.elems.live;
        next = drain_slot(next, elems, shared, slot, out, written);
    }
    next
}

// All runs go, each from its lowest slot; the overflow of the closing clear is not reported.
pub fn drain_all(
    head: Head,
    elems: &mut [u64],
    shared: &mut [u64],
    out: &mut [u64],
) -> Result<Step<u64>, Refusal>
    requires { Ready (state_of head elems.old shared.old) }
    ensures { after one_value head result elems.new shared.new out.new ≡ step (state_of head elems.old shared.old) out.old drain_all }
{
    let frames = head.elems.live;
    if (out.len() as u64) < frames * RECORD_WIDTH {
        return Err(Refusal::Short);
    }
    let emptied = drain_slots(head, elems, shared, out);
    let cleared = clear(emptied, elems, shared)?;
    Ok(Step::plain(cleared.head, frames))
}
