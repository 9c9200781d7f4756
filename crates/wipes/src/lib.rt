// Rules 2 and 12: fresh and clear.
// Ported from clear of impl_surject_arena_trait.rs (triple_arena 0.15.1, NOTICE).
#![tactic(auto)]

ghost use Rattle.std.specs.Prelude.{◌≡◌, List, [], ◌++◌, ℕ, ◌+◌, ◌*◌, ◌≤◌, ◌<◌, length, replicate, drop};
ghost use Rattle.rules.specs.Tables.{frame_width, header_width, state_of};
ghost use Rattle.rules.specs.Slots.{empty};
ghost use Rattle.rules.specs.Calls as calls;
ghost use Rattle.rules.specs.Calls.{Ready, step, fresh_step};
ghost use Rattle.rules.specs.Answers.{no_values, after};
ghost use Rattle.wipes.specs.Wiped.{ZeroPast};

use rules::{BLANK, FRAME, HEADER, Head, Pool, Refusal, Step};
use shape::both_fit;

// Rules 2 and 12: zero tables of so many slots, and the head over them; past the first `used` and `classed` slots they are zero already.
pub fn blank(
    frames: u64,
    headers: u64,
    generation: u64,
    elems: &mut [u64],
    used: u64,
    shared: &mut [u64],
    classed: u64,
) -> Head
    requires { ZeroPast frames frame_width used elems.old × ZeroPast headers header_width classed shared.old }
    ensures { state_of result elems.new shared.new ≡ empty frames headers generation }
{
    elems[..(used * FRAME) as usize].fill(0);
    shared[..(classed * HEADER) as usize].fill(0);
    Head {
        elems: Pool::empty(frames),
        shared: Pool::empty(headers),
        generation,
        undo: BLANK,
    }
}

// Rules 2, fresh: any tables that fit, dirty ones too.
pub fn fresh(
    head: Head,
    frames: u64,
    headers: u64,
    elems: &mut [u64],
    shared: &mut [u64],
) -> Result<Step<()>, Refusal>
    ensures { after no_values head result elems.new shared.new [] ≡ fresh_step (state_of head elems.old shared.old) frames headers }
{
    if !both_fit(elems, shared, frames, headers) {
        return Err(Refusal::Shape);
    }
    let next = blank(frames, headers, 1, elems, frames, shared, headers);
    Ok(Step::plain(next, ()))
}

// Rules 12, clear: it stops at the extents, past which a sound table is zero (Sound 6).
pub fn clear(head: Head, elems: &mut [u64], shared: &mut [u64]) -> Result<Step<()>, Refusal>
    requires { Ready (state_of head elems.old shared.old) }
    ensures { after no_values head result elems.new shared.new [] ≡ step (state_of head elems.old shared.old) [] calls.clear }
{
    let raised = head.raise();
    let next = blank(
        head.elems.capacity,
        head.shared.capacity,
        raised.head.generation,
        elems,
        head.elems.extent,
        shared,
        head.shared.extent,
    );
    Ok(Step {
        head: next,
        ..raised
    })
}
