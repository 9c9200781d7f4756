// The soundness check of one free element slot, of one frame, and of one ring.
#![tactic(auto)]

ghost use Rattle.std.specs.Prelude.{◌*◌, ◌≤◌, ◌<◌, length};
ghost use Rattle.rules.specs.Tables.{frame_width};
ghost use Rattle.rules.specs.Calls.{Is};
ghost use Rattle.rules.proofs.Laws.Rounds.{Within, Fit, Round};
ghost use Rattle.turns.specs.Turns.{FreeOk};

use rules::{CLASS, FRAME, GENERATION, LAST_GENERATION, MOST_BYTES, NEXT, PAYLOAD, PREVIOUS, SIZE};

// Sound 6 of a free element slot.
pub fn free_ok(e: &[u64], x: u64) -> bool
    requires { (0 < x) × (x * frame_width ≤ length e.now) }
    ensures { Is (FreeOk e.now x) result }
{
    slots::get(e, FRAME, PAYLOAD, x) == 0
        && slots::get(e, FRAME, CLASS, x) == 0
        && slots::get(e, FRAME, PREVIOUS, x) == 0
        && slots::get(e, FRAME, SIZE, x) == 0
}

// Sound 4, 7 and 9 and Ticket 6 of one frame: its generation, its class, that the next slot leads back, and its size.
fn frame_ok(e: &[u64], extent: u64, class: u64, y: u64) -> bool
    requires { (extent * frame_width ≤ length e.now) × Within extent y }
    ensures { Is (Fit e.now extent class y) result }
{
    let next = slots::get(e, FRAME, NEXT, y);
    (1..=LAST_GENERATION).contains(&slots::get(e, FRAME, GENERATION, y))
        && slots::get(e, FRAME, CLASS, y) == class
        && (1..=extent).contains(&next)
        && slots::get(e, FRAME, PREVIOUS, next) == y
        && slots::get(e, FRAME, SIZE, y) <= MOST_BYTES
}

// Sound 9 and 11 and Ticket 6: whether exactly `count` frames of a class stand in the ring of x, with `total` bytes between them.
pub fn ring_ok(e: &[u64], extent: u64, class: u64, x: u64, count: u64, total: u64) -> bool
    requires { (extent * frame_width ≤ length e.now) × Within extent x }
    ensures { Is (Round e.now extent class x count total x) result }
{
    let mut y = x;
    let mut rest = total;
    for left in (0..count).rev() {
        if !frame_ok(e, extent, class, y) {
            return false;
        }
        let size = slots::get(e, FRAME, SIZE, y);
        if rest < size {
            return false;
        }
        rest -= size;
        let next = slots::get(e, FRAME, NEXT, y);
        if next == x {
            return left == 0 && rest == 0;
        }
        y = next;
    }
    false
}
