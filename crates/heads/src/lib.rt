// The lent head: thirteen numbers (docs/LAYOUT.md), or the struct, which lies as they do.
#![tactic(auto)]

ghost use Rattle.std.specs.Prelude.{◌≡◌};
ghost use Rattle.rules.specs.declared.Head.{Head};
ghost use Rattle.rules.specs.Answers.{said_step, head_after};
ghost use Rattle.numbers.specs.Numbers.{Answered, head_of};

use numbers::answers::{Numbers, result_of};
use rules::{Head, Memory, Pool, Refusal, Step};

#[tactic(auto, unfolding(numbers::specs::Numbers::head_of))]
pub fn unpack(h: [u64; 13]) -> Head
    ensures { result ≡ head_of h }
{
    Head {
        elems: Pool {
            capacity: h[0],
            extent: h[1],
            root: h[2],
            live: h[3],
        },
        shared: Pool {
            capacity: h[4],
            extent: h[5],
            root: h[6],
            live: h[7],
        },
        generation: h[8],
        undo: Memory {
            kept: h[9],
            gone: h[10],
            moved: h[11],
            value: h[12],
        },
    }
}

#[tactic(auto, unfolding(numbers::specs::Numbers::head_of))]
pub fn pack(h: Head) -> [u64; 13]
    ensures { head_of result ≡ h }
{
    let e = h.elems;
    let s = h.shared;
    let m = h.undo;
    [
        e.capacity,
        e.extent,
        e.root,
        e.live,
        s.capacity,
        s.extent,
        s.root,
        s.live,
        h.generation,
        m.kept,
        m.gone,
        m.moved,
        m.value,
    ]
}

// What a host lends as its head.
pub trait Lent: Copy {
    ghost head: { Self → Head };

    fn lend(next: Head) -> Self
        ensures { head result ≡ next };
}

impl Lent for [u64; 13] {
    ghost head = { head_of };

    fn lend(next: Head) -> [u64; 13] {
        pack(next)
    }
}

impl Lent for Head {
    ghost head = { λ h. h };

    fn lend(next: Head) -> Head {
        next
    }
}

// Refusals, below the table: an accepted call's numbers are told, then its next head is stored; a refused call stores nothing.
pub fn finish<H: Lent, T: Numbers<N>, const N: usize>(
    step: Result<Step<T>, Refusal>,
    head: &mut H,
    out: &mut [u64; N],
) -> u64
    ensures told { Answered T.shown (said_step T.values step) out.old result out.new }
    ensures stored { H.head head.new ≡ head_after (H.head head.old) step }
{
    match step {
        Ok(next) => {
            *out = next.answer.numbers(next.over);
            *head = H::lend(next.head);
            0
        }
        Err(refusal) => result_of(refusal),
    }
}
