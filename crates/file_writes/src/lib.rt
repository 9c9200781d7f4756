// The run file's writer (Ticket 11): the contents, then the bodies into the rest of the lent bytes. Runs are met in canonical order by an upward scan with a set of the classes met.
#![tactic(auto)]

ghost use Rattle.std.specs.Prelude.{◌≡◌, ◌+◌, ◌*◌, ◌≤◌, ◌<◌, length};
ghost use Rattle.std.proofs.lemmas.List.Edits.{sets};
ghost use Rattle.rules.specs.Tables.{state_of};
ghost use Rattle.rules.specs.RunFile.{frame_length, body_length, body_bytes, first_body};
ghost use Rattle.rules.specs.WriteFile.{run_in, runs_in};
ghost use Rattle.rules.specs.Calls as calls;
ghost use Rattle.rules.specs.Calls.{Ready, step};
ghost use Rattle.rules.specs.Answers.{one_value, leaves, said};
ghost use Rattle.rules.proofs.Laws.Safe.{LiveSlot};
ghost use Rattle.slots.specs.Asked.{Along};
ghost use Rattle.file_writes.specs.Writes.{state, stored_as, frames_along, bodies_of, entries_of, Marks, Begins, Scans, FitsAll, Filled};

use littles::{FRAME_LENGTH, VERSION, put4, put8};
use rules::{
    CLASS, COUNT, FRAME, GENERATION, HEADER, Head, NEXT, PAYLOAD, Refusal, SIZE, TOTAL, VALUE,
};
use slots::get;

// What is written: head and tables.
#[derive(Clone, Copy)]
struct Study<'a> {
    head: Head,
    elems: &'a [u64],
    shared: &'a [u64],
}

// A frame's bytes at a place.
fn write_frame(out: &mut [u8], at: usize, payload: u64, size: u64)
    requires { at + frame_length 1 ≤ length out.old }
    ensures { out.new ≡ sets out.old at (stored_as payload size) }
{
    put8(out, at, payload);
    put4(out, at + 8, size);
}

// The frames of a ring from `x` on, from a place on; the answer is the place after them.
fn write_frames(elems: &[u64], n: u64, x: u64, out: &mut [u8], place: usize) -> usize
    requires { Along elems.now n x × (place + n * frame_length 1 ≤ length out.old) }
    ensures { (result ≡ place + n * frame_length 1) × (out.new ≡ sets out.old place (frames_along elems.now n x)) }
{
    let mut slot = x;
    let mut at = place;
    for _ in 0..n {
        let payload = get(elems, FRAME, PAYLOAD, slot);
        let size = get(elems, FRAME, SIZE, slot);
        write_frame(out, at, payload, size);
        slot = get(elems, FRAME, NEXT, slot);
        at += FRAME_LENGTH;
    }
    at
}

impl Study<'_> {
    // Whether the slot after `i` others begins a run: it is live, and no lower one had its class, which is met then.
    fn begins(&self, seen: &mut [u64], i: u64) -> bool
        requires { Scans (state self.now) i seen.old }
        ensures { Begins (state self.now) i result seen.new }
    {
        let x = i + 1;
        if get(self.elems, FRAME, GENERATION, x) == 0 {
            return false;
        }
        let class = get(self.elems, FRAME, CLASS, x);
        let place = class - 1;
        if marks::is_marked(seen, place) {
            return false;
        }
        marks::mark(seen, place);
        true
    }

    // A run's body at the start of what is lent; the answer is its length.
    fn write_body(&self, x: u64, out: &mut [u8]) -> usize
        requires { Ready (state self.now) × LiveSlot (state self.now) x × (body_length 1 (run_in (state self.now) x) ≤ length out.old) }
        ensures { (result ≡ body_length 1 (run_in (state self.now) x)) × (out.new ≡ sets out.old 0 (body_bytes 1 (run_in (state self.now) x))) }
    {
        let class = get(self.elems, FRAME, CLASS, x);
        let count = get(self.shared, HEADER, COUNT, class);
        let value = get(self.shared, HEADER, VALUE, class);
        let total = get(self.shared, HEADER, TOTAL, class);
        put8(out, 0, value);
        put8(out, 8, total);
        put4(out, 16, count);
        write_frames(self.elems, count, x, out, 20)
    }

    // The length of a run's body, by its header's count.
    fn body_length(&self, x: u64) -> u64
        requires { Ready (state self.now) × LiveSlot (state self.now) x }
        ensures { result ≡ body_length 1 (run_in (state self.now) x) }
    {
        let class = get(self.elems, FRAME, CLASS, x);
        let count = get(self.shared, HEADER, COUNT, class);
        20 + count * FRAME_LENGTH as u64
    }

    // The contents: an entry for each run, the bodies beginning at `first`.
    // Kept as two scans: a closure that writes the lent bytes would hand no fact of them out, and the contents come first.
    fn write_contents(&self, seen: &mut [u64], out: &mut [u8], first: u64)
        requires { Ready (state self.now) × Marks (state self.now) 0 seen.old × FitsAll (state self.now) first out.old }
        ensures { out.new ≡ sets out.old 8 (entries_of first (runs_in (state self.now))) }
    {
        let mut entry: usize = 8;
        let mut at = first;
        for i in 0..self.head.elems.extent {
            if self.begins(seen, i) {
                let long = self.body_length(i + 1);
                put4(out, entry, at);
                put4(out, entry + 4, long);
                at += long;
                entry += 8;
            }
        }
    }

    // The bodies: each is written at the start of what is left of the lent bytes.
    fn write_bodies(&self, seen: &mut [u64], out: &mut [u8], first: usize)
        requires { Ready (state self.now) × Marks (state self.now) 0 seen.old × FitsAll (state self.now) first out.old }
        ensures { out.new ≡ sets out.old first (bodies_of (runs_in (state self.now))) }
    {
        let mut at = first;
        for i in 0..self.head.elems.extent {
            if self.begins(seen, i) {
                at += self.write_body(i + 1, &mut out[at..]);
            }
        }
    }

    // Contents and bodies, with a set of so many words. Each scan begins with an empty set.
    fn write_with<const WORDS: usize>(&self, out: &mut [u8], first: usize)
        requires { Ready (state self.now) × FitsAll (state self.now) first out.old × (self.now.head.shared.extent ≤ WORDS * 64) × (WORDS ≤ 1024) }
        ensures { Filled (state self.now) first out.old out.new }
    {
        let mut seen: [u64; WORDS] = [0; WORDS];
        self.write_contents(&mut seen, out, first as u64);
        seen = [0; WORDS];
        self.write_bodies(&mut seen, out, first);
    }

    // With a set as large as the shared extent needs: emptying the larger one would cost a small state more than the rest.
    fn write_runs(&self, out: &mut [u8], first: usize)
        requires { Ready (state self.now) × FitsAll (state self.now) first out.old }
        ensures { Filled (state self.now) first out.old out.new }
    {
        if self.head.shared.extent <= 1024 {
            self.write_with::<16>(out, first);
        } else {
            self.write_with::<1024>(out, first);
        }
    }
}

// Ticket 11: all runs into the lent bytes; the answer is how many bytes. At the inner door.
pub fn write_file(
    head: Head,
    elems: &[u64],
    shared: &[u64],
    file: &mut [u8],
) -> Result<u64, Refusal>
    requires { Ready (state_of head elems.now shared.now) }
    ensures { leaves head elems.now shared.now file.new (said one_value result) ≡ step (state_of head elems.now shared.now) file.old calls.write_file }
{
    let runs = head.shared.live;
    let frames = head.elems.live;
    let long = 8 + runs * 28 + frames * FRAME_LENGTH as u64;
    if (file.len() as u64) < long {
        return Err(Refusal::Short);
    }
    put4(file, 0, VERSION);
    put4(file, 4, runs);
    let first = 8 + runs as usize * 8;
    let study = Study {
        head,
        elems,
        shared,
    };
    study.write_runs(file, first);
    Ok(long)
}
