// Rules 8: remove shared.
ghost use Rattle.std.specs.Prelude.{◌≡◌, List, [], ℕ, ◌≤◌};
ghost use Rattle.rules.specs.Tables.{state_of};
ghost use Rattle.rules.specs.Drains.{free_ring};
ghost use Rattle.rules.specs.Calls.{Ready, step, remove_shared};
ghost use Rattle.rules.specs.Answers.{one_value, after};
ghost use Rattle.rings.specs.Asked.{Apart};

use rules::{CLASS, COUNT, FRAME, HEADER, Head, Key, NEXT, Refusal, Step, VALUE};

// `n` frames along next from `x` are freed.
fn free_ring(head: Head, elems: &mut [u64], n: u64, x: u64) -> Head
    requires { Apart elems.old n x × (n ≤ head.elems.live) }
    ensures { (s : List ℕ) → state_of result elems.new s ≡ free_ring n (state_of head elems.old s) x }
{
    let mut next = head;
    let mut at = x;
    for _ in 0..n {
        let after = slots::get(elems, FRAME, NEXT, at);
        next = slots::free_frame(next, elems, at);
        at = after;
    }
    next
}

// The whole run is taken out, and the generation rises once.
pub fn remove_shared(
    head: Head,
    elems: &mut [u64],
    shared: &mut [u64],
    key: Key,
) -> Result<Step<u64>, Refusal>
    requires { Ready (state_of head elems.old shared.old) }
    ensures { after one_value head result elems.new shared.new [] ≡ step (state_of head elems.old shared.old) [] (remove_shared key) }
{
    let x = slots::find(head, elems, key)?;
    let class = slots::get(elems, FRAME, CLASS, x);
    let size = slots::get(shared, HEADER, COUNT, class);
    let value = slots::get(shared, HEADER, VALUE, class);
    let emptied = free_ring(head, elems, size, x);
    let freed = slots::free_header(emptied, shared, class);
    let raised = freed.raise();
    Ok(Step {
        head: raised.head,
        answer: value,
        over: raised.over,
    })
}
