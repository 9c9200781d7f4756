// Remove (Rules 7) at the inner door: equal to its rule, on a ready state.
// Ported from remove_element of surject_arena.rs (triple_arena 0.15.1, NOTICE).
#![tactic(auto)]

ghost use Rattle.std.specs.Prelude.{◌≡◌, List, [], ℕ};
ghost use Rattle.rules.specs.Tables.{state_of};
ghost use Rattle.rules.specs.Calls.{Ready, step, remove};
ghost use Rattle.rules.specs.Answers.{removed_values, after};
ghost use Rattle.slots.specs.Asked.{OnLive};
ghost use Rattle.removes.specs.Removal.{Leaves, LeftClass, RemovedAt};

use rules::{
    CLASS, COUNT, FRAME, HEADER, Head, Key, PAYLOAD, Refusal, Removed, Rest, SIZE, Step, TOTAL,
    VALUE,
};

// A frame of `size` bytes leaves the class: the last one frees its shared slot.
fn leave(head: Head, shared: &mut [u64], class: u64, size: u64) -> Step<Rest>
    requires { Leaves head shared.old class size }
    ensures { (e : List ℕ) → LeftClass (state_of head e shared.old) class size result shared.new }
{
    let count = slots::get(shared, HEADER, COUNT, class);
    if count == 1 {
        let value = slots::get(shared, HEADER, VALUE, class);
        let next = slots::free_header(head, shared, class);
        return Step::plain(next, Rest::Last(value));
    }
    let total = slots::get(shared, HEADER, TOTAL, class);
    slots::recount(shared, class, count - 1, total - size);
    Step::plain(head, Rest::GoesOn)
}

// The frame in `x` is taken out.
pub fn remove_at(head: Head, elems: &mut [u64], shared: &mut [u64], x: u64) -> Step<Removed>
    requires { OnLive (state_of head elems.old shared.old) x }
    ensures { RemovedAt (state_of head elems.old shared.old) x result elems.new shared.new }
{
    let class = slots::get(elems, FRAME, CLASS, x);
    let payload = slots::get(elems, FRAME, PAYLOAD, x);
    let size = slots::get(elems, FRAME, SIZE, x);
    slots::unlink(elems, x);
    let freed = slots::free_frame(head, elems, x);
    let left = leave(freed, shared, class, size);
    let raised = left.head.raise();
    Step {
        head: raised.head,
        answer: Removed {
            payload,
            rest: left.answer,
        },
        over: raised.over,
    }
}

// Rules 7, remove.
pub fn remove_element(
    head: Head,
    elems: &mut [u64],
    shared: &mut [u64],
    key: Key,
) -> Result<Step<Removed>, Refusal>
    requires { Ready (state_of head elems.old shared.old) }
    ensures { after removed_values head result elems.new shared.new [] ≡ step (state_of head elems.old shared.old) [] (remove key) }
{
    let x = slots::find(head, elems, key)?;
    Ok(remove_at(head, elems, shared, x))
}
