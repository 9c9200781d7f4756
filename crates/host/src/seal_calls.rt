// The seal: count, frames and mark in one call.
ghost use Rattle.rules.specs.Calls.{seal};
ghost use Rattle.numbers.specs.Numbers.{values};
ghost use Rattle.promises.specs.Host.{key_of, AtHost, left};

use heads::{finish, unpack};
use rules::Key;

// Ticket 1: seals the key's run, a place for each of its frames.
#[unsafe(no_mangle)]
pub extern "C" fn doorsedge_seal(
    head: &mut [u64; 13],
    elems: &[u64],
    shared: &mut [u64],
    slot: u64,
    generation: u64,
    places: &mut [u64],
    out: &mut [u64; 2],
) -> u64
    ensures { AtHost (seal (key_of slot generation)) values head.old elems.now shared.old places.old out.old (left result head.new elems.now shared.new places.new out.new) }
{
    let key = Key { slot, generation };
    let step = door::seal(unpack(*head), elems, shared, key, places);
    finish(step, head, out)
}
