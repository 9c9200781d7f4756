// A study moved to other tables (Ticket 12): the source's rings gathered into the target's rows, then its headers laid beside them. No scratch.
// Ported from transfer_canonical_reallocating of surject_arena.rs (triple_arena 0.15.1, NOTICE).
#![tactic(auto)]

ghost use Rattle.std.specs.Prelude.{◌≡◌, true};
ghost use Rattle.rules.specs.Tables as tables;
ghost use Rattle.rules.specs.Tables.{state_of};
ghost use Rattle.rules.specs.Compress.{packed_in};
ghost use Rattle.rules.specs.Refusals.{shaped};
ghost use Rattle.rules.specs.Calls.{Ready};
ghost use Rattle.rules.specs.TwoTables.{after_both};
ghost use Rattle.rules.specs.Move.{transfer_step};
ghost use Rattle.moves.specs.Moves.{Layable, Laid, Movable, Landed};

use clones::copy_row;
use copies::zero;
use gather::gather;
use place::fill;
use rules::{BLANK, CLASS, COUNT, FRAME, HEADER, Head, Moved, Pool, Refusal};
use slots::get;
use wipes::blank;

// Run k of the rows, whose frames have the source's class still: its header comes to slot k, and its class entries become k.
fn lay(elems: &mut [u64], shared: &mut [u64], headers: &[u64], runs: u64)
    requires { Layable runs elems.old shared.old headers.now }
    ensures { Laid runs elems.old shared.old headers.now elems.new shared.new }
{
    let mut at: u64 = 1;
    for k in 0..runs {
        let class = get(elems, FRAME, CLASS, at);
        let count = get(headers, HEADER, COUNT, class);
        copy_row(shared, k + 1, headers, class, HEADER);
        fill(elems, at, count, k + 1);
        at += count;
    }
}

// Both of the target's tables. In the source every generation is zero by then: it is to be wiped, up to its extents.
fn land(
    elems: &mut [u64],
    shared: &mut [u64],
    source: Head,
    frames: &mut [u64],
    headers: &[u64],
    generation: u64,
)
    requires { Movable elems.old shared.old source frames.old headers.now }
    ensures { Landed elems.old shared.old (state_of source frames.old headers.now) generation elems.new shared.new frames.new }
{
    let moved = gather(source, frames, headers, elems, generation);
    let all = elems.len() as u64;
    zero(elems, moved * FRAME, all);
    let runs = source.shared.live;
    lay(elems, shared, headers, runs);
    let rest = shared.len() as u64;
    zero(shared, runs * HEADER, rest);
}

// Extents are the live numbers and roots 0; nothing is left to undo.
fn packed(room: u64, live: u64, places: u64, runs: u64, generation: u64) -> Head
    ensures { result ≡ record { elems = packed_in room live; shared = packed_in places runs; generation = generation; undo = tables.blank } }
{
    Head {
        elems: Pool::packed(room, live),
        shared: Pool::packed(places, runs),
        generation,
        undo: BLANK,
    }
}

// Ticket 12: the source's frames go to the target in canonical order with this generation, and the source is left as clear leaves it. At the inner door.
pub fn transfer_canonical(
    head: Head,
    elems: &mut [u64],
    shared: &mut [u64],
    generation: u32,
    source: Head,
    frames: &mut [u64],
    headers: &mut [u64],
) -> Result<Moved, Refusal>
    requires { (shaped (state_of head elems.old shared.old) ≡ true) × Ready (state_of source frames.old headers.old) }
    ensures { after_both head source result elems.new shared.new frames.new headers.new ≡ transfer_step (state_of head elems.old shared.old) (state_of source frames.old headers.old) generation }
{
    if generation == 0 {
        return Err(Refusal::OutOfRange);
    }
    let room = head.elems.capacity;
    let live = source.elems.live;
    if room < live {
        return Err(Refusal::NoElement);
    }
    let places = head.shared.capacity;
    let runs = source.shared.live;
    if places < runs {
        return Err(Refusal::NoShared);
    }
    let given = u64::from(generation);
    if live == 0 {
        let none = blank(room, places, given, elems, room, shared, places);
        return Ok(Moved {
            head: none,
            source,
            over: false,
        });
    }
    land(elems, shared, source, frames, headers, given);
    let slots = source.elems.capacity;
    let classes = source.shared.capacity;
    let next = source.raise();
    let after = next.head.generation;
    let used = source.elems.extent;
    let classed = source.shared.extent;
    let left = blank(slots, classes, after, frames, used, headers, classed);
    Ok(Moved {
        head: packed(room, live, places, runs, given),
        source: left,
        over: next.over,
    })
}
