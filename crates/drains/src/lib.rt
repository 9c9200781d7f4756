// Drain a run (Rules 10) at the inner door, frame by frame: equal to its rule, on a ready state.
// Ported from drain_surject of surject_iterators.rs (triple_arena 0.15.1, NOTICE).
#![tactic(auto)]

ghost use Rattle.std.specs.Prelude.{◌≡◌, [], ◌∷◌, ◌++◌, if◌then◌else◌};
ghost use Rattle.rules.specs.Tables.{row, state_of};
ghost use Rattle.rules.specs.Drains.{record_width, rest_fields};
ghost use Rattle.rules.specs.Calls as calls;
ghost use Rattle.rules.specs.Calls.{Ready, step};
ghost use Rattle.rules.specs.Answers.{one_value, after};
ghost use Rattle.slots.specs.Asked.{Within, OnLive};
ghost use Rattle.drains.specs.Asked.{Drains};
ghost use Rattle.drains.specs.Answered.{Gone, Drained};

use removes::remove_at;
use rings::lists::{size_at, write_place};
use rules::{FRAME, GENERATION, Head, Key, NEXT, Refusal, Removed, Rest, Step};

// Numbers to a record (docs/LAYOUT.md); in the rules, record_width.
pub const RECORD_WIDTH: u64 = 6;

// A record is written at a place, counted from 1: of the run it says 1 with the last frame, and the shared value then.
fn write_record(out: &mut [u64], place: u64, slot: u64, generation: u64, gone: Removed, over: bool)
    requires { Within record_width out.old place }
    ensures { out.new ≡ row record_width out.old place (slot ∷ generation ∷ gone.payload ∷ rest_fields gone.rest ++ (if over then 1 else 0) ∷ []) }
{
    let (last, value) = match gone.rest {
        Rest::GoesOn => (0, 0),
        Rest::Last(was) => (1, was),
    };
    write_place(
        out,
        place,
        [slot, generation, gone.payload, last, value, u64::from(over)],
    );
}

// The frame in `x` is taken out, and its record written at a place.
fn drain_frame(
    head: Head,
    elems: &mut [u64],
    shared: &mut [u64],
    x: u64,
    out: &mut [u64],
    place: u64,
) -> Head
    requires { OnLive (state_of head elems.old shared.old) x × Within record_width out.old place }
    ensures { Gone (state_of head elems.old shared.old) x out.old place result elems.new shared.new out.new }
{
    let generation = slots::get(elems, FRAME, GENERATION, x);
    let gone = remove_at(head, elems, shared, x);
    write_record(out, place, x, generation, gone.answer, gone.over);
    gone.head
}

// `n` frames along next from `x` are taken out, with their records past the first `from` places.
pub fn drain_run(
    head: Head,
    elems: &mut [u64],
    shared: &mut [u64],
    n: u64,
    x: u64,
    out: &mut [u64],
    from: u64,
) -> Head
    requires { Drains (state_of head elems.old shared.old) n x out.old from }
    ensures { Drained (state_of head elems.old shared.old) n x out.old from result elems.new shared.new out.new }
{
    let mut next = head;
    let mut at = x;
    for written in from..from + n {
        let after = slots::get(elems, FRAME, NEXT, at);
        next = drain_frame(next, elems, shared, at, out, written + 1);
        at = after;
    }
    next
}

// The run goes frame by frame, in ring order from the given key.
pub fn drain(
    head: Head,
    elems: &mut [u64],
    shared: &mut [u64],
    key: Key,
    out: &mut [u64],
) -> Result<Step<u64>, Refusal>
    requires { Ready (state_of head elems.old shared.old) }
    ensures { after one_value head result elems.new shared.new out.new ≡ step (state_of head elems.old shared.old) out.old (calls.drain key) }
{
    let x = slots::find(head, elems, key)?;
    let size = size_at(head, elems, shared, x);
    if (out.len() as u64) < size * RECORD_WIDTH {
        return Err(Refusal::Short);
    }
    let next = drain_run(head, elems, shared, size, x, out, 0);
    Ok(Step::plain(next, size))
}
