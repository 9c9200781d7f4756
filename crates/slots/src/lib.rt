// The slots of the lent tables: leaves, rows, taking and freeing, lookup and ring links (Modules 1 to 3).
#![tactic(auto)]

ghost use Rattle.std.specs.Prelude.{◌≡◌, List, [], ◌∷◌, ℕ, ◌+◌, ◌*◌, ◌≤◌, ◌<◌, length};
ghost use Rattle.rules.specs.Tables.{frame_width, header_width, cell, put, row, state_of, with_pools, elem_side, shared_side, previous_of, next_of, class_of, is_sealed};
ghost use Rattle.rules.specs.Slots.{taken, free_element, free_shared};
ghost use Rattle.rules.specs.Runs.{frame, counted, linked, exchanged, rewritten};
ghost use Rattle.slots.specs.Asked.{Within, Cell, Takes, Next, Between, Along, OnLive};
ghost use Rattle.slots.specs.Answered.{Looks, spliced};

use rules::{
    CLASS, COUNT, Cause, FRAME, GENERATION, HEADER, Head, Key, MARK, NEXT, NEXT_FREE, PAYLOAD,
    PREVIOUS, SIZE, TOTAL, VALUE,
};

// A field of a slot.
#[tactic(auto, using(rules::proofs::Laws::Columns::cell_index))]
pub fn get(t: &[u64], width: u64, field: u64, slot: u64) -> u64
    requires { Cell width t.now field slot }
    ensures { result ≡ cell width t.now field slot }
{
    t[((slot - 1) * width + field) as usize]
}

#[tactic(auto, using(rules::proofs::Laws::Columns::put_index))]
pub fn put(t: &mut [u64], width: u64, slot: u64, field: u64, value: u64)
    requires { Cell width t.old field slot }
    ensures { t.new ≡ put width t.old slot field value }
{
    t[((slot - 1) * width + field) as usize] = value;
}

// All fields of an element slot.
#[tactic(auto, using(crate::proofs::Places::row_puts))]
pub fn write_frame(
    e: &mut [u64],
    slot: u64,
    generation: u64,
    payload: u64,
    class: u64,
    previous: u64,
    next: u64,
    size: u64,
)
    requires { Within frame_width e.old slot }
    ensures { e.new ≡ row frame_width e.old slot (frame generation payload class previous next size) }
{
    put(e, FRAME, slot, GENERATION, generation);
    put(e, FRAME, slot, PAYLOAD, payload);
    put(e, FRAME, slot, CLASS, class);
    put(e, FRAME, slot, PREVIOUS, previous);
    put(e, FRAME, slot, NEXT, next);
    put(e, FRAME, slot, SIZE, size);
}

// All fields of a shared slot, whose run is not sealed.
#[tactic(auto, using(crate::proofs::Places::row_puts))]
pub fn write_header(s: &mut [u64], slot: u64, count: u64, value: u64, next: u64, total: u64)
    requires { Within header_width s.old slot }
    ensures { s.new ≡ row header_width s.old slot (count ∷ value ∷ next ∷ 0 ∷ total ∷ []) }
{
    put(s, HEADER, slot, COUNT, count);
    put(s, HEADER, slot, VALUE, value);
    put(s, HEADER, slot, NEXT_FREE, next);
    put(s, HEADER, slot, MARK, 0);
    put(s, HEADER, slot, TOTAL, total);
}

// The count of a class, and Ticket 6's total.
pub fn recount(s: &mut [u64], class: u64, count: u64, total: u64)
    requires { Within header_width s.old class }
    ensures { s.new ≡ counted s.old class count total }
{
    put(s, HEADER, class, COUNT, count);
    put(s, HEADER, class, TOTAL, total);
}

// Rules 3, taking an element slot.
#[tactic(auto, unfolding(rules::specs::Slots::taken))]
pub fn take_frame(head: Head, elems: &[u64]) -> Head
    requires { Takes head.elems frame_width elems.now }
    ensures { (s : List ℕ) → result ≡ with_pools head (taken (elem_side (state_of head elems.now s))) head.shared }
{
    let root = head.elems.root;
    if root == 0 {
        return head.grow_element();
    }
    let next = get(elems, FRAME, NEXT, root);
    head.pop_element(next)
}

// Rules 3, taking a shared slot.
#[tactic(auto, unfolding(rules::specs::Slots::taken))]
pub fn take_header(head: Head, shared: &[u64]) -> Head
    requires { Takes head.shared header_width shared.now }
    ensures { (e : List ℕ) → result ≡ with_pools head head.elems (taken (shared_side (state_of head e shared.now))) }
{
    let root = head.shared.root;
    if root == 0 {
        return head.grow_shared();
    }
    let next = get(shared, HEADER, NEXT_FREE, root);
    head.pop_shared(next)
}

// Rules 3, freeing an element slot.
#[tactic(auto, unfolding(rules::specs::Slots::free_element, rules::specs::Slots::free_slot))]
pub fn free_frame(head: Head, elems: &mut [u64], slot: u64) -> Head
    requires { Within frame_width elems.old slot × (1 ≤ head.elems.live) }
    ensures { (s : List ℕ) → state_of result elems.new s ≡ free_element (state_of head elems.old s) slot }
{
    write_frame(elems, slot, 0, 0, 0, 0, head.elems.root, 0);
    head.push_element(slot)
}

// Rules 3, freeing a shared slot.
#[tactic(auto, unfolding(rules::specs::Slots::free_shared, rules::specs::Slots::free_slot))]
pub fn free_header(head: Head, shared: &mut [u64], slot: u64) -> Head
    requires { Within header_width shared.old slot × (1 ≤ head.shared.live) }
    ensures { (e : List ℕ) → state_of result e shared.new ≡ free_shared (state_of head e shared.old) slot }
{
    write_header(shared, slot, 0, 0, head.shared.root, 0);
    head.push_shared(slot)
}

// Tables 4 and Ticket 5: a key is looked up.
pub fn find(head: Head, elems: &[u64], key: Key) -> Result<u64, Cause>
    requires { head.elems.extent * frame_width ≤ length elems.now }
    ensures { (s : List ℕ) → Looks (state_of head elems.now s) key result }
{
    let slot = key.slot;
    if slot == 0 || head.elems.extent < slot {
        return Err(Cause::NoSlot);
    }
    let generation = get(elems, FRAME, GENERATION, slot);
    if generation == 0 {
        return Err(Cause::FreeSlot);
    }
    if generation == key.generation {
        return Ok(slot);
    }
    Err(Cause::OtherGeneration)
}

// Ticket 1: the run of the frame in a live slot is sealed.
pub fn is_sealed(head: Head, elems: &[u64], shared: &[u64], x: u64) -> bool
    requires { OnLive (state_of head elems.now shared.now) x }
    ensures { is_sealed (state_of head elems.now shared.now) x ≡ result }
{
    let class = get(elems, FRAME, CLASS, x);
    let mark = get(shared, HEADER, MARK, class);
    mark == 1
}

// Rules 6 and 7: the slot `b` stands immediately after `a`.
#[tactic(auto, unfolding(rules::specs::Runs::linked))]
pub fn link(e: &mut [u64], a: u64, b: u64)
    requires { Within frame_width e.old a × Within frame_width e.old b }
    ensures { e.new ≡ linked e.old a b }
{
    put(e, FRAME, a, NEXT, b);
    put(e, FRAME, b, PREVIOUS, a);
}

// Rules 5: the slot `y` is written as a frame immediately after `x`, in its class, which is the answer.
#[tactic(auto, unfolding(crate::specs::Answered::spliced))]
pub fn splice(e: &mut [u64], x: u64, y: u64, generation: u64, payload: u64, size: u64) -> u64
    requires { Next e.old x × Within frame_width e.old y }
    ensures { (result ≡ class_of e.old x) × (e.new ≡ spliced e.old x y generation payload size) }
{
    let class = get(e, FRAME, CLASS, x);
    let next = get(e, FRAME, NEXT, x);
    write_frame(e, y, generation, payload, class, x, next, size);
    put(e, FRAME, x, NEXT, y);
    put(e, FRAME, next, PREVIOUS, y);
    class
}

// Rules 6: the next links of `x` and `y` are exchanged, previous links following.
#[tactic(auto, unfolding(rules::specs::Runs::exchanged))]
pub fn exchange(e: &mut [u64], x: u64, y: u64)
    requires { Next e.old x × Next e.old y }
    ensures { e.new ≡ exchanged e.old x y }
{
    let after_x = get(e, FRAME, NEXT, x);
    let after_y = get(e, FRAME, NEXT, y);
    link(e, x, after_y);
    link(e, y, after_x);
}

// Rules 7: the frame leaves its ring.
pub fn unlink(e: &mut [u64], x: u64)
    requires { Between e.old x }
    ensures { e.new ≡ linked e.old (previous_of e.old x) (next_of e.old x) }
{
    let previous = get(e, FRAME, PREVIOUS, x);
    let next = get(e, FRAME, NEXT, x);
    link(e, previous, next);
}

// Rules 6: the class entries of `n` frames along next from `x` become `class`.
pub fn rewrite(e: &mut [u64], n: u64, x: u64, class: u64)
    requires { Along e.old n x }
    ensures { e.new ≡ rewritten n e.old x class }
{
    let mut at = x;
    for _ in (0..n).rev() {
        let next = get(e, FRAME, NEXT, at);
        put(e, FRAME, at, CLASS, class);
        at = next;
    }
}
