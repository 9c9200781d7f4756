// Run files: the writer, which changes neither head nor tables, and the reader.
ghost use Rattle.std.specs.Prelude.{[]};
ghost use Rattle.rules.specs.Calls.{write_file};
ghost use Rattle.numbers.specs.Numbers.{values};
ghost use Rattle.promises.specs.Host.{AtHost, AtRead, left};

use heads::{finish, unpack};
use numbers::answers::told;

// Ticket 11: writes all runs to the lent bytes; the answer is how many.
#[unsafe(no_mangle)]
pub extern "C" fn doorsedge_write_file(
    head: &[u64; 13],
    elems: &[u64],
    shared: &[u64],
    file: &mut [u8],
    out: &mut [u64; 1],
) -> u64
    ensures { AtHost write_file values head.now elems.now shared.now file.old out.old (left result head.now elems.now shared.now file.new out.new) }
{
    let answer = door::write_file(unpack(*head), elems, shared, file);
    told(answer, out)
}

// Ticket 11: the file's runs in fresh tables of the head's capacities; all else that head and tables hold may be anything.
#[unsafe(no_mangle)]
pub extern "C" fn doorsedge_read_file(
    head: &mut [u64; 13],
    elems: &mut [u64],
    shared: &mut [u64],
    file: &[u8],
) -> u64
    ensures { AtRead file.now head.old elems.old shared.old (left result head.new elems.new shared.new [] []) }
{
    let step = door::read_file(unpack(*head), elems, shared, file);
    finish(step, head, &mut [])
}
