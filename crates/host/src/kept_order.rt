// Compression that keeps the slot order and tells the new keys.
ghost use Rattle.std.specs.Prelude.{◌≡◌};
ghost use Rattle.rules.specs.Calls.{compress_with};
ghost use Rattle.numbers.specs.Numbers.{values_over};
ghost use Rattle.promises.specs.Host.{AtHost, left, is_set};

use heads::{finish, unpack};

// Ticket 3: moves all frames down in slot order; an old key and its new one for each.
#[unsafe(no_mangle)]
pub extern "C" fn doorsedge_compress_with(
    head: &mut [u64; 13],
    elems: &mut [u64],
    shared: &mut [u64],
    reset: u64,
    pairs: &mut [u64],
    out: &mut [u64; 2],
) -> u64
    ensures { AtHost (compress_with (is_set reset)) values_over head.old elems.old shared.old pairs.old out.old (left result head.new elems.new shared.new pairs.new out.new) }
{
    let step = door::compress_with(unpack(*head), elems, shared, pairs, reset != 0);
    finish(step, head, out)
}
