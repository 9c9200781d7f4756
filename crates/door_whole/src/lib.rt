// Whole tables at the host's door: the gate, then the call at the inner door. Nothing is required of the caller.
#![tactic(auto, using(gate::proofs::Gates::past))]

ghost use Rattle.std.specs.Prelude.{◌≡◌, []};
ghost use Rattle.rules.specs.Tables.{state_of};
ghost use Rattle.rules.specs.Answers.{no_values, one_value, after};
ghost use Rattle.rules.specs.Calls.{AtDoor, fresh_step, clear, compress, compress_with};

use gate::gate;
use rules::{Head, Refusal, Step};

// Rules 2, fresh: it has no door but its own, and gives only 1.
pub fn fresh(
    head: Head,
    frames: u64,
    headers: u64,
    elems: &mut [u64],
    shared: &mut [u64],
) -> Result<Step<()>, Refusal>
    ensures { after no_values head result elems.new shared.new [] ≡ fresh_step (state_of head elems.old shared.old) frames headers }
{
    wipes::fresh(head, frames, headers, elems, shared)
}

// Rules 12: clear.
pub fn clear(head: Head, elems: &mut [u64], shared: &mut [u64]) -> Result<Step<()>, Refusal>
    ensures { AtDoor (state_of head elems.old shared.old) [] clear (after no_values head result elems.new shared.new []) }
{
    gate(head, elems, shared)?;
    wipes::clear(head, elems, shared)
}

// Rules 14: compress canonical.
pub fn compress_canonical(
    head: Head,
    elems: &mut [u64],
    shared: &mut [u64],
    scratch: &mut [u64],
    reset: bool,
) -> Result<Step<()>, Refusal>
    ensures { AtDoor (state_of head elems.old shared.old) scratch.old (compress reset) (after no_values head result elems.new shared.new scratch.new) }
{
    gate(head, elems, shared)?;
    compress::compress_canonical(head, elems, shared, scratch, reset)
}

// Ticket 3: compress with the slot order kept, and the new keys told.
pub fn compress_with(
    head: Head,
    elems: &mut [u64],
    shared: &mut [u64],
    pairs: &mut [u64],
    reset: bool,
) -> Result<Step<u64>, Refusal>
    ensures { AtDoor (state_of head elems.old shared.old) pairs.old (compress_with reset) (after one_value head result elems.new shared.new pairs.new) }
{
    gate(head, elems, shared)?;
    ordered::compress_with(head, elems, shared, pairs, reset)
}
