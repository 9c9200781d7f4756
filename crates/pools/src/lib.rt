// The soundness check of one table: its extent, its free chain, zeros past the extent; and the shared slots.
#![tactic(auto)]

ghost use Rattle.std.specs.Prelude.{◌*◌, ◌≤◌, ◌<◌, length};
ghost use Rattle.rules.specs.Tables.{cell, header_width};
ghost use Rattle.rules.specs.Calls.{Is};
ghost use Rattle.rules.proofs.Laws.Chains.{Linked};
ghost use Rattle.pools.specs.Pools.{Zeros, Roomy, PoolOk, HeaderOk, Headers};

use rules::{COUNT, HEADER, MARK, NEXT_FREE, Pool, TOTAL, VALUE};

// The field that is 0 where a slot is free: an element's generation, a header's count.
const USED: u64 = 0;

// Whether a table holds only zeros from a place on. One OR over all words, with no branch for each.
fn zeros(t: &[u64], from: usize) -> bool
    requires { from ≤ length t.now }
    ensures { Is (Zeros t.now from) result }
{
    t[from..].iter().fold(0, |any, word| any | *word) == 0
}

// Whether the free chain from a root is one, of so many slots.
fn chain_ok(t: &[u64], width: u64, link: u64, extent: u64, root: u64, free: u64) -> bool
    requires { (extent * width ≤ length t.now) × (link < width) }
    ensures { Is (Linked (cell width t.now 0) (cell width t.now link) extent free root) result }
{
    let mut x = root;
    for _ in 0..free {
        if x == 0 || extent < x || slots::get(t, width, USED, x) != 0 {
            return false;
        }
        x = slots::get(t, width, link, x);
    }
    x == 0
}

// Sound 2, 5 and 6 of one table: its extent, its free chain, and zeros past the extent. A chain that is as long as the extent leaves after the live slots holds every free one (Ticket 4).
pub fn pool_ok(p: Pool, t: &[u64], width: u64, link: u64) -> bool
    requires { Roomy p width t.now × (width ≤ 64) × (link < width) }
    ensures { Is (PoolOk p width link t.now) result }
{
    p.extent <= p.capacity
        && p.live <= p.extent
        && zeros(t, (p.extent * width) as usize)
        && chain_ok(t, width, link, p.extent, p.root, p.extent - p.live)
}

// Sound 6 of a shared slot, and Ticket 1 of its mark.
fn header_ok(s: &[u64], c: u64) -> bool
    requires { (0 < c) × (c * header_width ≤ length s.now) }
    ensures { Is (HeaderOk s.now c) result }
{
    let count = slots::get(s, HEADER, COUNT, c);
    let mark = slots::get(s, HEADER, MARK, c);
    // A mark is 0 or 1, and 0 on a free slot.
    if 1 < mark || count < mark {
        return false;
    }
    if count == 0 {
        slots::get(s, HEADER, VALUE, c) == 0 && slots::get(s, HEADER, TOTAL, c) == 0
    } else {
        slots::get(s, HEADER, NEXT_FREE, c) == 0
    }
}

// Sound 6 of the shared slots, and Ticket 1 of their marks.
pub fn headers_ok(s: &[u64], extent: u64) -> bool
    requires { extent * header_width ≤ length s.now }
    ensures { Is (Headers s.now extent) result }
{
    (1..extent + 1).all(|c| header_ok(s, c))
}
