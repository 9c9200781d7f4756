// Rules 9: list.
ghost use Rattle.std.specs.Prelude.{◌≡◌, false, [], ◌∷◌, ◌*◌, ◌≤◌, length};
ghost use Rattle.std.proofs.lemmas.List.Edits.{sets};
ghost use Rattle.rules.specs.Tables.{row, state_of, size_at};
ghost use Rattle.rules.specs.Drains.{key_width};
ghost use Rattle.rules.specs.Calls as calls;
ghost use Rattle.rules.specs.Calls.{Ready, step};
ghost use Rattle.rules.specs.Answers.{one_value, leaves, said};
ghost use Rattle.slots.specs.Asked.{Within, Along, OnLive};
ghost use Rattle.rings.specs.Answered.{keys_along};

use rules::{CLASS, COUNT, FRAME, GENERATION, HEADER, Head, Key, NEXT, Refusal};

// Numbers to a place of a list (docs/LAYOUT.md); in the rules, key_width.
pub const KEY_WIDTH: u64 = 2;

// The number of frames in the run of a live slot.
pub fn size_at(head: Head, elems: &[u64], shared: &[u64], x: u64) -> u64
    requires { OnLive (state_of head elems.now shared.now) x }
    ensures { result ≡ size_at (state_of head elems.now shared.now) x }
{
    let class = slots::get(elems, FRAME, CLASS, x);
    slots::get(shared, HEADER, COUNT, class)
}

// So many numbers are written at a place, counted from 1: those of a key, a seal or a record.
pub fn write_place<const WIDTH: usize>(out: &mut [u64], place: u64, numbers: [u64; WIDTH])
    requires { Within WIDTH out.old place }
    ensures { out.new ≡ row WIDTH out.old place numbers.entry }
{
    let start = (place as usize - 1) * WIDTH;
    out[start..start + WIDTH].copy_from_slice(&numbers);
}

// The keys of `n` frames along next from `x` are written, from the first place on.
fn write_keys(elems: &[u64], n: u64, x: u64, out: &mut [u64])
    requires { Along elems.now n x × (n * key_width ≤ length out.old) }
    ensures { out.new ≡ sets out.old 0 (keys_along elems.now n x) }
{
    let mut at = x;
    for written in 0..n {
        let generation = slots::get(elems, FRAME, GENERATION, at);
        write_place(out, written + 1, [at, generation]);
        at = slots::get(elems, FRAME, NEXT, at);
    }
}

// The keys of the run, in ring order from the given one.
pub fn list(
    head: Head,
    elems: &[u64],
    shared: &[u64],
    key: Key,
    out: &mut [u64],
) -> Result<u64, Refusal>
    requires { Ready (state_of head elems.now shared.now) }
    ensures { leaves head elems.now shared.now out.new (said one_value result) ≡ step (state_of head elems.now shared.now) out.old (calls.list key) }
{
    let x = slots::find(head, elems, key)?;
    let size = size_at(head, elems, shared, x);
    if (out.len() as u64) < size * KEY_WIDTH {
        return Err(Refusal::Short);
    }
    write_keys(elems, size, x, out);
    Ok(size)
}
