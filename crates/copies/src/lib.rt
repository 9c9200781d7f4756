// Parts of tables copied and zeroed, for compression: a ring to rows of the scratch, the first numbers of a slice, zeros over a part of one.
#![tactic(auto)]

ghost use Rattle.std.specs.Prelude.{◌≡◌, ◌+◌, ◌≤◌, ◌<◌, length};
ghost use Rattle.rules.specs.Tables.{most_slots};
ghost use Rattle.rules.specs.ReadFile.{before_in, after_in};
ghost use Rattle.copies.specs.Parts.{Copiable, Copied, Pasted, Zeroed};

use rules::{CLASS, FRAME, GENERATION, NEXT, PAYLOAD, SIZE};
use slots::{get, put, write_frame};

// In a block of `n` slots past `a`: the slot before its `i + 1`-th, and the slot after it.
#[tactic(auto, unfolding(rules::specs::ReadFile::before_in))]
pub fn before(a: u64, n: u64, i: u64) -> u64
    requires { (a + n ≤ most_slots) × (i < n) }
    ensures { result ≡ before_in a n i }
{
    if i == 0 {
        return a + n;
    }
    a + i
}

#[tactic(auto, unfolding(rules::specs::ReadFile::after_in))]
pub fn after(a: u64, n: u64, i: u64) -> u64
    requires { (a + n ≤ most_slots) × (i < n) }
    ensures { result ≡ after_in a n i }
{
    if i + 1 == n {
        return a + 1;
    }
    a + i + 2
}

// The ring of `n` frames from `x` goes to the scratch rows past the `a`-th, linked as one block; a zero generation where it stood says that it was met.
pub fn copy_ring(elems: &mut [u64], scratch: &mut [u64], x: u64, a: u64, n: u64, generation: u64)
    requires { Copiable elems.old scratch.old x a n }
    ensures { Copied elems.old scratch.old x a n n generation elems.new scratch.new }
{
    let mut at = x;
    for i in 0..n {
        let payload = get(elems, FRAME, PAYLOAD, at);
        let class = get(elems, FRAME, CLASS, at);
        let next = get(elems, FRAME, NEXT, at);
        let size = get(elems, FRAME, SIZE, at);
        let previous = before(a, n, i);
        let following = after(a, n, i);
        write_frame(
            scratch,
            a + i + 1,
            generation,
            payload,
            class,
            previous,
            following,
            size,
        );
        put(elems, FRAME, at, GENERATION, 0);
        at = next;
    }
}

// The first `n` numbers of `t` become those of `s`. Kept as a loop: copy_from_slice would call memmove, and the archive calls no C function but memset (docs/TRUST.md).
pub fn paste(t: &mut [u64], s: &[u64], n: u64)
    requires { (n ≤ length t.old) × (n ≤ length s.now) }
    ensures { Pasted t.old s.now n t.new }
{
    for i in 0..n as usize {
        t[i] = s[i];
    }
}

// The numbers from `start` to before `end` become 0.
pub fn zero(t: &mut [u64], start: u64, end: u64)
    requires { (start ≤ end) × (end ≤ length t.old) }
    ensures { Zeroed t.old start end t.new }
{
    t[start as usize..end as usize].fill(0);
}
