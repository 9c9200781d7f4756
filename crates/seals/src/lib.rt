// Seal a run in one call (Ticket 1) at the inner door: equal to its rule, on a ready state. The Rust has no such call.
#![tactic(auto)]

ghost use Rattle.std.specs.Prelude.{◌≡◌, [], ◌∷◌, ◌*◌, ◌≤◌, length};
ghost use Rattle.std.proofs.lemmas.List.Edits.{sets};
ghost use Rattle.rules.specs.Tables.{row, state_of};
ghost use Rattle.rules.specs.Seals.{seal_width};
ghost use Rattle.rules.specs.Calls as calls;
ghost use Rattle.rules.specs.Calls.{Ready, step};
ghost use Rattle.rules.specs.Answers.{seal_values, after};
ghost use Rattle.slots.specs.Asked.{Within, Along};
ghost use Rattle.rings.specs.Answered.{places_along};
ghost use Rattle.seals.specs.Answered.{frame_place};

use rings::lists::write_place;
use rules::{
    CLASS, COUNT, FRAME, GENERATION, HEADER, Head, Key, MARK, NEXT, PAYLOAD, Refusal, Seal, Step,
    VALUE,
};

// Numbers to a place of a seal (docs/LAYOUT.md); in the rules, seal_width.
pub const SEAL_WIDTH: u64 = 3;

// Keys and payloads of `n` frames along next from `x` are written, from the first place on.
fn write_places(elems: &[u64], n: u64, x: u64, out: &mut [u64])
    requires { Along elems.now n x × (n * seal_width ≤ length out.old) }
    ensures { out.new ≡ sets out.old 0 (places_along (frame_place elems.now) elems.now n x) }
{
    let mut at = x;
    for written in 0..n {
        let generation = slots::get(elems, FRAME, GENERATION, at);
        let payload = slots::get(elems, FRAME, PAYLOAD, at);
        write_place(out, written + 1, [at, generation, payload]);
        at = slots::get(elems, FRAME, NEXT, at);
    }
}

// Value and count are answered, the run is written in ring order from the given key, and its header is marked.
pub fn seal(
    head: Head,
    elems: &[u64],
    shared: &mut [u64],
    key: Key,
    out: &mut [u64],
) -> Result<Step<Seal>, Refusal>
    requires { Ready (state_of head elems.now shared.old) }
    ensures { after seal_values head result elems.now shared.new out.new ≡ step (state_of head elems.now shared.old) out.old (calls.seal key) }
{
    let x = slots::find(head, elems, key)?;
    if slots::is_sealed(head, elems, shared, x) {
        return Err(Refusal::Sealed);
    }
    let class = slots::get(elems, FRAME, CLASS, x);
    let count = slots::get(shared, HEADER, COUNT, class);
    if (out.len() as u64) < count * SEAL_WIDTH {
        return Err(Refusal::Short);
    }
    write_places(elems, count, x, out);
    let value = slots::get(shared, HEADER, VALUE, class);
    slots::put(shared, HEADER, class, MARK, 1);
    let next = head.forget();
    Ok(Step::plain(next, Seal { value, count }))
}
