// Two recorders' tables: the target first, then the source.
ghost use Rattle.std.specs.Prelude.{[]};
ghost use Rattle.promises.specs.Two.{left_two, AtHostCopy, AtHostMove};

use heads::{finish, pack, unpack};
use numbers::answers::{Numbers, result_of};

// Ticket 10: copies a study to other tables, whatever they held; keys of live frames stay valid there.
#[unsafe(no_mangle)]
pub extern "C" fn doorsedge_clone_from(
    head: &mut [u64; 13],
    elems: &mut [u64],
    shared: &mut [u64],
    source: &[u64; 13],
    frames: &[u64],
    headers: &[u64],
) -> u64
    ensures { AtHostCopy head.old elems.old shared.old source.now frames.now headers.now (left_two result head.new elems.new shared.new source.now frames.now headers.now []) }
{
    let from = unpack(*source);
    let step = door::clone_from(unpack(*head), elems, shared, from, frames, headers);
    finish(step, head, &mut [])
}

// Ticket 12: moves a study to other tables in canonical order, with this generation; its own are left as clear leaves them.
#[unsafe(no_mangle)]
pub extern "C" fn doorsedge_transfer_canonical(
    head: &mut [u64; 13],
    elems: &mut [u64],
    shared: &mut [u64],
    generation: u32,
    source: &mut [u64; 13],
    frames: &mut [u64],
    headers: &mut [u64],
    out: &mut [u64; 1],
) -> u64
    ensures { AtHostMove generation head.old elems.old shared.old source.old frames.old headers.old out.old (left_two result head.new elems.new shared.new source.new frames.new headers.new out.new) }
{
    let (to, from) = (unpack(*head), unpack(*source));
    match door::transfer_canonical(to, elems, shared, generation, from, frames, headers) {
        Ok(moved) => {
            *out = ().numbers(moved.over);
            *head = pack(moved.head);
            *source = pack(moved.source);
            0
        }
        Err(refusal) => result_of(refusal),
    }
}
