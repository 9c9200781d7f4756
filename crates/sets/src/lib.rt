// Sets (Rules 1) at the inner door: each equal to its rule, on a ready state.
// Ported from get_shared_mut of surject_arena.rs (triple_arena 0.15.1, NOTICE).
#![tactic(auto)]

ghost use Rattle.std.specs.Prelude.{◌≡◌, []};
ghost use Rattle.rules.specs.Tables.{state_of};
ghost use Rattle.rules.specs.Calls.{Ready, step, set_element, set_shared};
ghost use Rattle.rules.specs.Answers.{one_value, after};

use rules::{CLASS, FRAME, HEADER, Head, Key, PAYLOAD, Refusal, Step, VALUE};

// A new payload; the answer is the old one.
pub fn set(
    head: Head,
    elems: &mut [u64],
    shared: &[u64],
    key: Key,
    payload: u64,
) -> Result<Step<u64>, Refusal>
    requires { Ready (state_of head elems.old shared.now) }
    ensures { after one_value head result elems.new shared.now [] ≡ step (state_of head elems.old shared.now) [] (set_element key payload) }
{
    let x = slots::find(head, elems, key)?;
    let old = slots::get(elems, FRAME, PAYLOAD, x);
    slots::put(elems, FRAME, x, PAYLOAD, payload);
    Ok(Step::plain(head.forget(), old))
}

// A new value of the class; the answer is the old one.
pub fn set_shared(
    head: Head,
    elems: &[u64],
    shared: &mut [u64],
    key: Key,
    value: u64,
) -> Result<Step<u64>, Refusal>
    requires { Ready (state_of head elems.now shared.old) }
    ensures { after one_value head result elems.now shared.new [] ≡ step (state_of head elems.now shared.old) [] (set_shared key value) }
{
    let x = slots::find(head, elems, key)?;
    let class = slots::get(elems, FRAME, CLASS, x);
    let was = slots::get(shared, HEADER, VALUE, class);
    slots::put(shared, HEADER, class, VALUE, value);
    Ok(Step::plain(head.forget(), was))
}
