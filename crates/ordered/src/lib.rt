// Compression that keeps the slot order and tells the new keys (Ticket 3), at the inner door: in place, linear and without scratch.
// Ported from compress_with of impl_surject_arena_trait.rs (triple_arena 0.15.1, NOTICE).
#![tactic(auto)]

ghost use Rattle.std.specs.Prelude.{◌≡◌};
ghost use Rattle.rules.specs.Tables.{state_of, elem_side, shared_side};
ghost use Rattle.rules.specs.Answers.{one_value, after};
ghost use Rattle.rules.specs.Calls.{Ready, step, compress_with};
ghost use Rattle.rules.specs.Compress.{renumbered, live_slots};

use compress::{pack, renew};
use ranks::{FRAMES, HEADERS, PAIR_WIDTH, rank, rename, settle, tell};
use rules::{Head, Refusal, Step};

// Both tables. Every frame gets a new generation, and a live header's next free number is 0: they hold the ranks meanwhile.
fn renumber(head: Head, elems: &mut [u64], shared: &mut [u64], generation: u64)
    requires { Ready (state_of head elems.old shared.old) }
    ensures { state_of head elems.new shared.new ≡ (let st = state_of head elems.old shared.old in let to = renumbered st (live_slots (elem_side st)) (live_slots (shared_side st)) generation in state_of head to.elems to.shared) }
{
    let frames = head.elems.extent;
    let headers = head.shared.extent;
    rank(elems, FRAMES, frames);
    rank(shared, HEADERS, headers);
    rename(elems, shared, frames);
    settle(elems, FRAMES, generation, frames);
    settle(shared, HEADERS, 0, headers);
}

// Ticket 3: live frames move down in slot order, headers in their own; a pair of old key and new key for each frame.
pub fn compress_with(
    head: Head,
    elems: &mut [u64],
    shared: &mut [u64],
    pairs: &mut [u64],
    reset: bool,
) -> Result<Step<u64>, Refusal>
    requires { Ready (state_of head elems.old shared.old) }
    ensures { after one_value head result elems.new shared.new pairs.new ≡ step (state_of head elems.old shared.old) pairs.old (compress_with reset) }
{
    let live = head.elems.live;
    if (pairs.len() as u64) < live * PAIR_WIDTH {
        return Err(Refusal::Short);
    }
    let next = renew(head, reset);
    let generation = next.head.generation;
    tell(elems, pairs, generation, head.elems.extent);
    renumber(head, elems, shared, generation);
    Ok(Step {
        head: Head {
            elems: pack(head.elems),
            shared: pack(head.shared),
            ..next.head
        },
        answer: live,
        over: next.over,
    })
}
