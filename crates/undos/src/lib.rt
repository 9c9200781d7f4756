// Undo (ticket 7) at the inner door, equal to its rule on a ready state whose memory is part of its soundness; and the check of that memory.
#![tactic(auto)]

ghost use Rattle.std.specs.Prelude.{◌≡◌, [], ◌<◌};
ghost use Rattle.rules.specs.Notation.{steps};
ghost use Rattle.rules.specs.Tables.{total_bound, state_of, next_of};
ghost use Rattle.rules.specs.Sound.{bytes_along};
ghost use Rattle.rules.specs.Undo.{Remembers, taken_back};
ghost use Rattle.rules.specs.Calls.{Ready, Is, step};
ghost use Rattle.rules.proofs.Laws.Traced.{Traced};
ghost use Rattle.rules.specs.Calls as calls;
ghost use Rattle.rules.specs.Answers.{no_values, after};
ghost use Rattle.slots.specs.Asked.{Along};
ghost use Rattle.undos.specs.Undo.{Undoable};

use rules::{
    CLASS, COUNT, FRAME, GENERATION, HEADER, Head, MARK, NEXT, Refusal, SIZE, Step, TOTAL,
};

// Ticket 6: the bytes of `n` frames along next from `x`.
fn weigh(e: &[u64], n: u64, x: u64) -> u64
    requires { Along e.now n x × (bytes_along e.now n x < total_bound) }
    ensures { result ≡ bytes_along e.now n x }
{
    let mut at = x;
    let mut bytes = 0;
    for _ in 0..n {
        bytes += slots::get(e, FRAME, SIZE, at);
        at = slots::get(e, FRAME, NEXT, at);
    }
    bytes
}

// The union that the head remembers is taken back.
fn take_back(head: Head, elems: &mut [u64], shared: &mut [u64]) -> Head
    requires { Undoable (state_of head elems.old shared.old) }
    ensures { state_of result elems.new shared.new ≡ taken_back (state_of head elems.old shared.old) }
{
    let memory = head.undo;
    let kept = slots::get(elems, FRAME, CLASS, memory.kept);
    let size = slots::get(shared, HEADER, COUNT, kept);
    let total = slots::get(shared, HEADER, TOTAL, kept);
    let class = head.shared.slot();
    let next = slots::take_header(head, shared);
    slots::exchange(elems, memory.kept, memory.gone);
    let bytes = weigh(elems, memory.moved, memory.gone);
    slots::rewrite(elems, memory.moved, memory.gone, class);
    slots::write_header(shared, class, memory.moved, memory.value, 0, bytes);
    slots::recount(shared, kept, size - memory.moved, total - bytes);
    next
}

// Undo.
pub fn undo(head: Head, elems: &mut [u64], shared: &mut [u64]) -> Result<Step<()>, Refusal>
    requires { Ready (state_of head elems.old shared.old) × Remembers (state_of head elems.old shared.old) }
    ensures { after no_values head result elems.new shared.new [] ≡ step (state_of head elems.old shared.old) [] calls.undo }
{
    let memory = head.undo;
    if memory.kept == 0 {
        return Err(Refusal::Nothing);
    }
    let next = take_back(head, elems, shared);
    Ok(Step::plain(next, ()))
}

// The slot that `n` steps along next lead to.
fn ahead(e: &[u64], n: u64, x: u64) -> u64
    requires { Along e.now n x }
    ensures { result ≡ steps (next_of e.now) n x }
{
    let mut at = x;
    for _ in 0..n {
        at = slots::get(e, FRAME, NEXT, at);
    }
    at
}

// The kept slot is live, its run is not sealed, and a walk of at most half its ring leads to the gone one; a shared slot is free.
fn traces(head: Head, elems: &[u64], shared: &[u64]) -> bool
    requires { Ready (state_of head elems.now shared.now) }
    ensures { Is (Traced (state_of head elems.now shared.now)) result }
{
    let memory = head.undo;
    let x = memory.kept;
    let n = memory.moved;
    if x == 0 || head.elems.extent < x || n == 0 || head.shared.root == 0 {
        return false;
    }
    if slots::get(elems, FRAME, GENERATION, x) == 0 {
        return false;
    }
    let class = slots::get(elems, FRAME, CLASS, x);
    let mark = slots::get(shared, HEADER, MARK, class);
    let size = slots::get(shared, HEADER, COUNT, class);
    if mark != 0 || size < n || size - n < n {
        return false;
    }
    ahead(elems, n, x) == memory.gone
}

// The check of what the head remembers: zeros, or a walk finds it.
pub fn remembers(head: Head, elems: &[u64], shared: &[u64]) -> bool
    requires { Ready (state_of head elems.now shared.now) }
    ensures { Is (Remembers (state_of head elems.now shared.now)) result }
{
    let memory = head.undo;
    let blank = memory.kept == 0 && memory.gone == 0 && memory.moved == 0 && memory.value == 0;
    blank || traces(head, elems, shared)
}
