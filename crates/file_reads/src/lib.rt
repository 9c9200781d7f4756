// The run file's reader (Ticket 11): its first pass tests the whole file, its second writes the tables, and nothing is tested twice.
#![tactic(auto)]

ghost use Rattle.std.specs.Prelude.{◌≡◌, [], map, ◌+◌, ◌*◌, ◌≤◌, ◌<◌, length, drop};
ghost use Rattle.std.proofs.lemmas.List.Edits.{sets};
ghost use Rattle.rules.specs.Notation.{flat};
ghost use Rattle.rules.specs.Tables.{most_slots, frame_width, state_of};
ghost use Rattle.rules.specs.Answers.{no_values, after};
ghost use Rattle.rules.specs.RunFile.{frame_length, frame_count};
ghost use Rattle.rules.specs.ReadFile.{read_frames, read_header, read_runs, read_tables, read_step};
ghost use Rattle.rules.proofs.Laws.Fixed.{frames_here};
ghost use Rattle.file_reads.specs.Fills.{held, Fillable, Buildable};

use copies::{after, before, zero};
use file_checks::{Held, check_runs};
use littles::{FRAME_LENGTH, VERSION, get4, get8};
use rules::{BLANK, FRAME, HEADER, Head, Pool, Refusal, Step};
use slots::{write_frame, write_header};

// The frames of a run of class `class` get the slots past `a`.
fn fill_frames(b: &[u8], at: usize, n: u64, class: u64, a: u64, elems: &mut [u64])
    requires { (at + n * frame_length 1 ≤ length b.now) × (a + n ≤ most_slots) × ((a + n) * frame_width ≤ length elems.old) }
    ensures { elems.new ≡ sets elems.old (a * frame_width) (read_frames class a n 0 (frames_here 1 n (drop at b.now))) }
{
    for i in 0..n {
        let place = at + i as usize * FRAME_LENGTH;
        let payload = get8(b, place);
        let size = get4(b, place + 8);
        let previous = before(a, n, i);
        let next = after(a, n, i);
        write_frame(elems, a + i + 1, 1, payload, class, previous, next, size);
    }
}

// Runs in their order: a header for each, and its frames in the slots past those of the runs before.
fn fill_runs(b: &[u8], runs: u64, elems: &mut [u64], shared: &mut [u64])
    requires { Fillable b.now elems.old shared.old × (runs ≡ length (held b.now)) }
    ensures { (elems.new ≡ sets elems.old 0 (read_runs 1 0 (held b.now))) × (shared.new ≡ sets shared.old 0 (flat (map read_header (held b.now)))) }
{
    let mut at = 8 + runs as usize * 8;
    let mut a: u64 = 0;
    for k in 0..runs {
        let value = get8(b, at);
        let total = get8(b, at + 8);
        let count = get4(b, at + 16);
        let class = k + 1;
        write_header(shared, class, count, value, 0, total);
        fill_frames(b, at + 20, count, class, a, elems);
        at = at + 20 + count as usize * FRAME_LENGTH;
        a += count;
    }
}

// The fresh tables that hold the file's runs, and the head over them.
fn build(head: Head, elems: &mut [u64], shared: &mut [u64], file: &[u8], counts: Held) -> Head
    requires { Buildable (state_of head elems.old shared.old) file.now counts.runs counts.frames }
    ensures { state_of result elems.new shared.new ≡ read_tables head.elems.capacity head.shared.capacity (held file.now) }
{
    let room = head.elems.capacity;
    let places = head.shared.capacity;
    fill_runs(file, counts.runs, elems, shared);
    zero(elems, counts.frames * FRAME, room * FRAME);
    zero(shared, counts.runs * HEADER, places * HEADER);
    Head {
        elems: Pool::packed(room, counts.frames),
        shared: Pool::packed(places, counts.runs),
        generation: 1,
        undo: BLANK,
    }
}

// Ticket 11: fresh tables with the file's runs, whatever head and tables held; the head tells the capacities.
#[tactic(auto, using(crate::proofs::Call::read_1, crate::proofs::Call::read_short, crate::proofs::Call::read_11, crate::proofs::Call::read_9, crate::proofs::Call::read_6, crate::proofs::Call::read_5, crate::proofs::Call::read_done))]
pub fn read_file(
    head: Head,
    elems: &mut [u64],
    shared: &mut [u64],
    file: &[u8],
) -> Result<Step<()>, Refusal>
    ensures { after no_values head result elems.new shared.new [] ≡ read_step (state_of head elems.old shared.old) file.now }
{
    if !shape::is_shaped(head, elems, shared) {
        return Err(Refusal::Shape);
    }
    if file.len() < 8 {
        return Err(Refusal::NoFile);
    }
    if get4(file, 0) != VERSION {
        return Err(Refusal::Version);
    }
    let counts = check_runs(file).ok_or(Refusal::NoFile)?;
    if head.shared.capacity < counts.runs {
        return Err(Refusal::NoShared);
    }
    if head.elems.capacity < counts.frames {
        return Err(Refusal::NoElement);
    }
    let next = build(head, elems, shared, file, counts);
    Ok(Step::plain(next, ()))
}
