// A table copied to another (Ticket 10): every live slot to its own, the free ones below the last chained lowest first. One pass down, no scratch.
// Ported from clone_from_with of surject_arena.rs (triple_arena 0.15.1, NOTICE).
#![tactic(auto)]

ghost use Rattle.std.specs.Prelude.{ℕ, ◌≡◌, true, ◌≤◌, ◌<◌};
ghost use Rattle.rules.specs.Tables.{most_slots, state_of};
ghost use Rattle.rules.specs.Refusals.{shaped};
ghost use Rattle.rules.specs.Calls.{Ready};
ghost use Rattle.rules.specs.TwoTables.{after_target};
ghost use Rattle.rules.specs.Copy.{last_live, copied_table, copied_pool, clone_step};
ghost use Rattle.slots.specs.Asked.{Within};
ghost use Rattle.clones.specs.Clones.{side_of, linked, Scannable, Rowed, Cleared, CloneOne, Clonable};

use copies::zero;
use rules::{BLANK, COUNT, FRAME, GENERATION, HEADER, Head, NEXT, NEXT_FREE, Pool, Refusal, Step};
use slots::{get, put};

// The numbers of a table's slots: how many, which says that a slot is live, and which names the next free one.
#[derive(Clone, Copy)]
pub struct Layout {
    pub width: u64,
    pub used: u64,
    pub link: u64,
}

const FRAMES: Layout = Layout {
    width: FRAME,
    used: GENERATION,
    link: NEXT,
};

const HEADERS: Layout = Layout {
    width: HEADER,
    used: COUNT,
    link: NEXT_FREE,
};

// The last live slot, whichever field links the free ones; 0 if there is none.
pub fn last(pool: Pool, t: &[u64], layout: Layout) -> u64
    requires { Scannable (side_of pool t.now layout) }
    ensures { (link : ℕ) → result ≡ last_live (side_of pool t.now (linked layout link)) }
{
    for below in (0..pool.extent).rev() {
        let slot = below + 1;
        let live = get(t, layout.width, layout.used, slot);
        if live != 0 {
            return slot;
        }
    }
    0
}

// The slot `place` becomes what `slot` is in the other table. Kept as a loop: copy_from_slice would call memmove, and the archive calls no C function but memset (docs/TRUST.md).
pub fn copy_row(to: &mut [u64], place: u64, from: &[u64], slot: u64, width: u64)
    requires { Within width to.old place × Within width from.now slot }
    ensures { Rowed width to.old place from.now slot to.new }
{
    for field in 0..width {
        let value = get(from, width, field, slot);
        put(to, width, place, field, value);
    }
}

// All fields of a slot become 0. Kept as a loop: where the width is known it is a few writes, and a fill would call memset for each slot.
fn clear_row(to: &mut [u64], place: u64, width: u64)
    requires { Within width to.old place }
    ensures { Cleared width to.old place to.new }
{
    for field in 0..width {
        put(to, width, place, field, 0);
    }
}

// One slot: a live one is copied; a free one names the free one above it, and is answered.
fn copy_slot(to: &mut [u64], from: &[u64], layout: Layout, slot: u64, root: u64) -> u64
    requires { Within layout.width to.old slot × Within layout.width from.now slot × (layout.used < layout.width) × (layout.link < layout.width) × (slot ≤ most_slots) × (layout.width ≤ most_slots) }
    ensures { CloneOne layout.width to.old from.now layout.used layout.link slot root to.new result }
{
    let live = get(from, layout.width, layout.used, slot);
    if live == 0 {
        clear_row(to, slot, layout.width);
        put(to, layout.width, slot, layout.link, root);
        return slot;
    }
    copy_row(to, slot, from, slot, layout.width);
    root
}

// The whole table, whose last live slot is `last`; the answer is the pool of the copy.
pub fn copy_table(
    capacity: u64,
    to: &mut [u64],
    pool: Pool,
    from: &[u64],
    layout: Layout,
    last: u64,
) -> Pool
    requires { Clonable capacity to.old (side_of pool from.now layout) last }
    ensures { (result ≡ copied_pool capacity (side_of pool from.now layout)) × (to.new ≡ copied_table capacity (side_of pool from.now layout)) }
{
    let mut root: u64 = 0;
    for below in (0..last).rev() {
        root = copy_slot(to, from, layout, below + 1, root);
    }
    zero(to, last * layout.width, capacity * layout.width);
    Pool {
        capacity,
        extent: last,
        root,
        live: pool.live,
    }
}

// Ticket 10: the live frames and headers of the source in their own slots of the target, whatever it held. At the inner door.
pub fn clone_from(
    head: Head,
    elems: &mut [u64],
    shared: &mut [u64],
    source: Head,
    frames: &[u64],
    headers: &[u64],
) -> Result<Step<()>, Refusal>
    requires { (shaped (state_of head elems.old shared.old) ≡ true) × Ready (state_of source frames.now headers.now) }
    ensures { after_target head result elems.new shared.new (state_of source frames.now headers.now) ≡ clone_step (state_of head elems.old shared.old) (state_of source frames.now headers.now) }
{
    let room = head.elems.capacity;
    let pool = source.elems;
    let top = last(pool, frames, FRAMES);
    if room < top {
        return Err(Refusal::NoElement);
    }
    let places = head.shared.capacity;
    let classes = source.shared;
    let highest = last(classes, headers, HEADERS);
    if places < highest {
        return Err(Refusal::NoShared);
    }
    let copy = copy_table(room, elems, pool, frames, FRAMES, top);
    let copied = copy_table(places, shared, classes, headers, HEADERS, highest);
    let next = Head {
        elems: copy,
        shared: copied,
        generation: source.generation,
        undo: BLANK,
    };
    Ok(Step::plain(next, ()))
}
