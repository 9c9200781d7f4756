// Whole runs at the host's door: the gate, then the call at the inner door. Nothing is required of the caller.
#![tactic(auto, using(gate::proofs::Gates::past))]

ghost use Rattle.std.specs.Prelude.{[]};
ghost use Rattle.rules.specs.Tables.{state_of};
ghost use Rattle.rules.specs.Answers.{one_value, seal_values, leaves, said, after};
ghost use Rattle.rules.specs.Calls.{AtDoor, remove_shared, list, drain, seal, drain_all};

use gate::gate;
use rules::{Head, Key, Refusal, Seal, Step};

// Rules 9: list.
pub fn list(
    head: Head,
    elems: &[u64],
    shared: &[u64],
    key: Key,
    out: &mut [u64],
) -> Result<u64, Refusal>
    ensures { AtDoor (state_of head elems.now shared.now) out.old (list key) (leaves head elems.now shared.now out.new (said one_value result)) }
{
    gate(head, elems, shared)?;
    rings::list(head, elems, shared, key, out)
}

// Rules 8: remove shared.
pub fn remove_shared(
    head: Head,
    elems: &mut [u64],
    shared: &mut [u64],
    key: Key,
) -> Result<Step<u64>, Refusal>
    ensures { AtDoor (state_of head elems.old shared.old) [] (remove_shared key) (after one_value head result elems.new shared.new []) }
{
    gate(head, elems, shared)?;
    rings::remove_shared(head, elems, shared, key)
}

// Rules 10: drain a run.
pub fn drain(
    head: Head,
    elems: &mut [u64],
    shared: &mut [u64],
    key: Key,
    out: &mut [u64],
) -> Result<Step<u64>, Refusal>
    ensures { AtDoor (state_of head elems.old shared.old) out.old (drain key) (after one_value head result elems.new shared.new out.new) }
{
    gate(head, elems, shared)?;
    drains::drain(head, elems, shared, key, out)
}

// Ticket 1: seal a run.
pub fn seal(
    head: Head,
    elems: &[u64],
    shared: &mut [u64],
    key: Key,
    out: &mut [u64],
) -> Result<Step<Seal>, Refusal>
    ensures { AtDoor (state_of head elems.now shared.old) out.old (seal key) (after seal_values head result elems.now shared.new out.new) }
{
    gate(head, elems, shared)?;
    seals::seal(head, elems, shared, key, out)
}

// Rules 11: drain all.
pub fn drain_all(
    head: Head,
    elems: &mut [u64],
    shared: &mut [u64],
    out: &mut [u64],
) -> Result<Step<u64>, Refusal>
    ensures { AtDoor (state_of head elems.old shared.old) out.old drain_all (after one_value head result elems.new shared.new out.new) }
{
    gate(head, elems, shared)?;
    sweeps::drain_all(head, elems, shared, out)
}
