// The head lent in place: a host lends its own struct, which lies as the thirteen numbers do (docs/LAYOUT.md).
ghost use Rattle.rules.specs.Calls.{insert, remove};
ghost use Rattle.numbers.specs.Numbers.{values, removal_numbers};
ghost use Rattle.promises.specs.Host.{key_of};
ghost use Rattle.promises.specs.InPlace.{AtHead, left_at};

use heads::finish;
use rules::{Head, Key};

// Rules 5, insert.
#[unsafe(no_mangle)]
pub extern "C" fn doorsedge_insert_in_place(
    head: &mut Head,
    elems: &mut [u64],
    shared: &mut [u64],
    slot: u64,
    generation: u64,
    payload: u64,
    size: u32,
    out: &mut [u64; 2],
) -> u64
    ensures { AtHead (insert (key_of slot generation) payload size) values head.old elems.old shared.old out.old (left_at result head.new elems.new shared.new out.new) }
{
    let key = Key { slot, generation };
    let inserted = door::insert(*head, elems, shared, key, payload, size);
    finish(inserted, head, out)
}

// Rules 7, remove.
#[unsafe(no_mangle)]
pub extern "C" fn doorsedge_remove_in_place(
    head: &mut Head,
    elems: &mut [u64],
    shared: &mut [u64],
    slot: u64,
    generation: u64,
    out: &mut [u64; 4],
) -> u64
    ensures { AtHead (remove (key_of slot generation)) removal_numbers head.old elems.old shared.old out.old (left_at result head.new elems.new shared.new out.new) }
{
    let key = Key { slot, generation };
    let removed = door::remove_element(*head, elems, shared, key);
    finish(removed, head, out)
}
