// Sets: keys and rings stay as they are, and nothing is left to undo.
ghost use Rattle.std.specs.Prelude.{◌≡◌, []};
ghost use Rattle.rules.specs.Calls.{set_element, set_shared, exchange};
ghost use Rattle.numbers.specs.Numbers.{values};
ghost use Rattle.promises.specs.Host.{key_of, AtHost, left, keys_of};

use heads::{finish, unpack};
use rules::Key;

// Slot and generation of each key in turn.
fn four_keys(keys: [u64; 8]) -> [Key; 4]
    ensures { result ≡ keys_of keys }
{
    let key = |i: usize| Key {
        slot: keys[2 * i],
        generation: keys[2 * i + 1],
    };
    [key(0), key(1), key(2), key(3)]
}

// Rules 1: stores a payload.
#[unsafe(no_mangle)]
pub extern "C" fn doorsedge_set(
    head: &mut [u64; 13],
    elems: &mut [u64],
    shared: &[u64],
    slot: u64,
    generation: u64,
    payload: u64,
    out: &mut [u64; 1],
) -> u64
    ensures { AtHost (set_element (key_of slot generation) payload) values head.old elems.old shared.now [] out.old (left result head.new elems.new shared.now [] out.new) }
{
    let key = Key { slot, generation };
    let step = door::set(unpack(*head), elems, shared, key, payload);
    finish(step, head, out)
}

// Rules 1: stores the shared value of the key's run.
#[unsafe(no_mangle)]
pub extern "C" fn doorsedge_set_shared(
    head: &mut [u64; 13],
    elems: &[u64],
    shared: &mut [u64],
    slot: u64,
    generation: u64,
    value: u64,
    out: &mut [u64; 1],
) -> u64
    ensures { AtHost (set_shared (key_of slot generation) value) values head.old elems.now shared.old [] out.old (left result head.new elems.now shared.new [] out.new) }
{
    let key = Key { slot, generation };
    let step = door::set_shared(unpack(*head), elems, shared, key, value);
    finish(step, head, out)
}

// Rules 13: four keys and four new shared values go in together.
#[unsafe(no_mangle)]
pub extern "C" fn doorsedge_exchange_shared4(
    head: &mut [u64; 13],
    elems: &[u64],
    shared: &mut [u64],
    keys: &[u64; 8],
    news: &[u64; 4],
    out: &mut [u64; 4],
) -> u64
    ensures { AtHost (exchange (keys_of keys.now) news.now) values head.old elems.now shared.old [] out.old (left result head.new elems.now shared.new [] out.new) }
{
    let step = door::exchange_disjoint_shared(
        unpack(*head),
        elems,
        shared,
        four_keys(*keys),
        *news,
    );
    finish(step, head, out)
}
