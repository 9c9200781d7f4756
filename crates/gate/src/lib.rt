// The host's gate: shape (1) and soundness (2), what the head remembers included (Ticket 7), before any call. Nothing is required of the caller.
#![tactic(auto)]

ghost use Rattle.std.specs.Prelude.{false, []};
ghost use Rattle.rules.specs.Tables.{state_of};
ghost use Rattle.rules.specs.Answers.{leaves, no_values, said};
ghost use Rattle.rules.specs.Calls.{AtDoor, check};
ghost use Rattle.gate.specs.Gate.{Gated};

use rules::{Head, Refusal};

// Refusals, order, 1 and 2.
pub fn gate(head: Head, elems: &[u64], shared: &[u64]) -> Result<(), Refusal>
    ensures { Gated (state_of head elems.now shared.now) result }
{
    if !shape::is_shaped(head, elems, shared) {
        return Err(Refusal::Shape);
    }
    if !sound::is_sound(head, elems, shared) || !undos::remembers(head, elems, shared) {
        return Err(Refusal::Unsound);
    }
    Ok(())
}

// Rules 1, the check: it changes nothing, and its refusals are the gate's.
pub fn check(head: Head, elems: &[u64], shared: &[u64]) -> Result<(), Refusal>
    ensures { AtDoor (state_of head elems.now shared.now) [] check (leaves head elems.now shared.now [] (said no_values result)) }
{
    gate(head, elems, shared)
}
