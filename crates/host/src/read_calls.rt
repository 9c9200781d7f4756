// Reads: they change nothing but `out` and the lent places.
ghost use Rattle.std.specs.Prelude.{◌≡◌, []};
ghost use Rattle.rules.specs.Calls.{len_surject, in_same_surject, get_element, get_shared, get_size, get_total, lookup, list};
ghost use Rattle.numbers.specs.Numbers.{values};
ghost use Rattle.promises.specs.Host.{key_of, AtHost, left};

use heads::unpack;
use numbers::answers::told;
use rules::Key;

// Rules 1: how many frames the key's run has.
#[unsafe(no_mangle)]
pub extern "C" fn doorsedge_len_surject(
    head: &[u64; 13],
    elems: &[u64],
    shared: &[u64],
    slot: u64,
    generation: u64,
    out: &mut [u64; 1],
) -> u64
    ensures { AtHost (len_surject (key_of slot generation)) values head.now elems.now shared.now [] out.old (left result head.now elems.now shared.now [] out.new) }
{
    let key = Key { slot, generation };
    let answer = door::len_surject(unpack(*head), elems, shared, key);
    told(answer, out)
}

// Rules 1: whether both keys are of one run.
#[unsafe(no_mangle)]
pub extern "C" fn doorsedge_in_same_surject(
    head: &[u64; 13],
    elems: &[u64],
    shared: &[u64],
    slot0: u64,
    generation0: u64,
    slot1: u64,
    generation1: u64,
    out: &mut [u64; 1],
) -> u64
    ensures { AtHost (in_same_surject (key_of slot0 generation0) (key_of slot1 generation1)) values head.now elems.now shared.now [] out.old (left result head.now elems.now shared.now [] out.new) }
{
    let j = Key {
        slot: slot0,
        generation: generation0,
    };
    let k = Key {
        slot: slot1,
        generation: generation1,
    };
    let answer = door::in_same_surject(unpack(*head), elems, shared, j, k);
    told(answer, out)
}

// Rules 1: the payload.
#[unsafe(no_mangle)]
pub extern "C" fn doorsedge_get(
    head: &[u64; 13],
    elems: &[u64],
    shared: &[u64],
    slot: u64,
    generation: u64,
    out: &mut [u64; 1],
) -> u64
    ensures { AtHost (get_element (key_of slot generation)) values head.now elems.now shared.now [] out.old (left result head.now elems.now shared.now [] out.new) }
{
    let key = Key { slot, generation };
    let answer = door::get(unpack(*head), elems, shared, key);
    told(answer, out)
}

// Rules 1: the shared value of the key's run.
#[unsafe(no_mangle)]
pub extern "C" fn doorsedge_get_shared(
    head: &[u64; 13],
    elems: &[u64],
    shared: &[u64],
    slot: u64,
    generation: u64,
    out: &mut [u64; 1],
) -> u64
    ensures { AtHost (get_shared (key_of slot generation)) values head.now elems.now shared.now [] out.old (left result head.now elems.now shared.now [] out.new) }
{
    let key = Key { slot, generation };
    let answer = door::get_shared(unpack(*head), elems, shared, key);
    told(answer, out)
}

// Ticket 6: the size of the key's frame.
#[unsafe(no_mangle)]
pub extern "C" fn doorsedge_get_size(
    head: &[u64; 13],
    elems: &[u64],
    shared: &[u64],
    slot: u64,
    generation: u64,
    out: &mut [u64; 1],
) -> u64
    ensures { AtHost (get_size (key_of slot generation)) values head.now elems.now shared.now [] out.old (left result head.now elems.now shared.now [] out.new) }
{
    let key = Key { slot, generation };
    let answer = door::get_size(unpack(*head), elems, shared, key);
    told(answer, out)
}

// Ticket 6: the total of the key's run.
#[unsafe(no_mangle)]
pub extern "C" fn doorsedge_get_total(
    head: &[u64; 13],
    elems: &[u64],
    shared: &[u64],
    slot: u64,
    generation: u64,
    out: &mut [u64; 1],
) -> u64
    ensures { AtHost (get_total (key_of slot generation)) values head.now elems.now shared.now [] out.old (left result head.now elems.now shared.now [] out.new) }
{
    let key = Key { slot, generation };
    let answer = door::get_total(unpack(*head), elems, shared, key);
    told(answer, out)
}

// Ticket 5: whether the key is live, and why not.
#[unsafe(no_mangle)]
pub extern "C" fn doorsedge_lookup(
    head: &[u64; 13],
    elems: &[u64],
    shared: &[u64],
    slot: u64,
    generation: u64,
) -> u64
    ensures { AtHost (lookup (key_of slot generation)) values head.now elems.now shared.now [] [] (left result head.now elems.now shared.now [] []) }
{
    let key = Key { slot, generation };
    let answer = door::lookup(unpack(*head), elems, shared, key);
    told(answer, &mut [])
}

// Rules 9: the keys of the run, in ring order from the key.
#[unsafe(no_mangle)]
pub extern "C" fn doorsedge_list(
    head: &[u64; 13],
    elems: &[u64],
    shared: &[u64],
    slot: u64,
    generation: u64,
    places: &mut [u64],
    out: &mut [u64; 1],
) -> u64
    ensures { AtHost (list (key_of slot generation)) values head.now elems.now shared.now places.old out.old (left result head.now elems.now shared.now places.new out.new) }
{
    let key = Key { slot, generation };
    let answer = door::list(unpack(*head), elems, shared, key, places);
    told(answer, out)
}
