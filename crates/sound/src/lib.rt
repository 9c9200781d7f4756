// The soundness check, linear in the extents and capacities: the scan of the element slots, and the whole.
// Ported from _check_surjects of surject_arena.rs (triple_arena 0.15.1, NOTICE), with what document 01 mends (docs/DIFFERENCES.md).
#![tactic(auto)]

ghost use Rattle.std.specs.Prelude.{◌≡◌, true, ◌*◌, ◌≤◌, length};
ghost use Rattle.rules.specs.Tables.{most_slots, state_of};
ghost use Rattle.rules.specs.Sound as sound;
ghost use Rattle.rules.specs.Refusals as refusals;
ghost use Rattle.rules.specs.Calls.{Is};
ghost use Rattle.rules.proofs.Laws.Rounds.{Within};
ghost use Rattle.pools.specs.Pools.{Verdict};
ghost use Rattle.sound.specs.Scans.{Fitting, Turned, Scanned, Blank};

use pools::{headers_ok, pool_ok};
use rules::{
    CLASS, COUNT, FRAME, GENERATION, HEADER, Head, LAST_GENERATION, NEXT, NEXT_FREE, TOTAL,
};
use turns::{free_ok, ring_ok};

// What the scan finds at a slot: a free one, a frame of a class that was seen, the first frame of a class and its ring's size, or what no sound state has.
// Kept as an enum: Result<Option<u64>, _> would have one value for a free slot and for a class that was seen, and neither is the lack of one.
#[derive(Clone, Copy)]
enum Turn {
    Free,
    Seen,
    First(u64),
    Wrong,
}

// One turn of the scan. The class is marked before its ring is walked.
fn look(head: Head, e: &[u64], s: &[u64], seen: &mut [u64], x: u64) -> Turn
    requires { Fitting (state_of head e.now s.now) × Within head.elems.extent x × (head.shared.extent ≤ length seen.old * 64) }
    ensures { Turned (state_of head e.now s.now) seen.old x result seen.new }
{
    if slots::get(e, FRAME, GENERATION, x) == 0 {
        return if free_ok(e, x) {
            Turn::Free
        } else {
            Turn::Wrong
        };
    }
    let class = slots::get(e, FRAME, CLASS, x);
    if !(1..=head.shared.extent).contains(&class) {
        return Turn::Wrong;
    }
    if marks::is_marked(seen, class - 1) {
        return Turn::Seen;
    }
    marks::mark(seen, class - 1);
    let count = slots::get(s, HEADER, COUNT, class);
    let total = slots::get(s, HEADER, TOTAL, class);
    if ring_ok(e, head.elems.extent, class, x, count, total) {
        Turn::First(count)
    } else {
        Turn::Wrong
    }
}

// Sound 3, 4 and 6 to 11 of the element slots: each is free as it must be, or stands in a ring, one to a live class. Live slots are not counted: the frames met are as many as the head says, and the free chain leaves room for no more.
fn scan(head: Head, e: &[u64], s: &[u64], seen: &mut [u64]) -> bool
    requires { Fitting (state_of head e.now s.now) × Blank head.shared.extent seen.old }
    ensures { Verdict (Scanned (state_of head e.now s.now)) (sound.Sound (state_of head e.now s.now)) result }
{
    let mut met: u64 = 0;
    let mut rings: u64 = 0;
    for i in 0..head.elems.extent {
        match look(head, e, s, seen, i + 1) {
            Turn::Wrong => return false,
            // With an empty arm here the compiled check takes a tenth longer.
            Turn::Free | Turn::Seen => continue,
            Turn::First(count) => {
                met += count;
                rings += 1;
            }
        }
    }
    met == head.elems.live && rings == head.shared.live
}

// The scan with marks for as many classes as so many words hold.
fn scan_with<const WORDS: usize>(head: Head, e: &[u64], s: &[u64]) -> bool
    requires { Fitting (state_of head e.now s.now) × (head.shared.extent ≤ WORDS * 64) × (WORDS ≤ 1024) }
    ensures { Verdict (Scanned (state_of head e.now s.now)) (sound.Sound (state_of head e.now s.now)) result }
{
    let mut seen: [u64; WORDS] = [0; WORDS];
    scan(head, e, s, &mut seen)
}

// With as many marks as the shared extent needs: clearing them all would cost a small state more than the rest of the check.
fn rings_ok(head: Head, e: &[u64], s: &[u64]) -> bool
    requires { Fitting (state_of head e.now s.now) × (head.shared.extent ≤ most_slots) }
    ensures { Verdict (Scanned (state_of head e.now s.now)) (sound.Sound (state_of head e.now s.now)) result }
{
    if head.shared.extent <= 1024 {
        scan_with::<16>(head, e, s)
    } else {
        scan_with::<1024>(head, e, s)
    }
}

// Sound 1 to 11, and the clauses of Tickets 1, 4 and 6.
pub fn is_sound(head: Head, elems: &[u64], shared: &[u64]) -> bool
    requires { refusals.shaped (state_of head elems.now shared.now) ≡ true }
    ensures { Is (sound.Sound (state_of head elems.now shared.now)) result }
{
    if !(1..=LAST_GENERATION).contains(&head.generation)
        || !pool_ok(head.shared, shared, HEADER, NEXT_FREE)
        || !pool_ok(head.elems, elems, FRAME, NEXT)
        || !headers_ok(shared, head.shared.extent)
    {
        return false;
    }
    rings_ok(head, elems, shared)
}
