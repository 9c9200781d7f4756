// The reader's first pass (Ticket 11): does a file keep the layout of its version, and how many runs and frames does it hold. Nothing is written.
#![tactic(auto)]

ghost use Rattle.std.specs.Prelude.{◌≡◌, ◌+◌, ◌*◌, ◌≤◌, ◌<◌, length, drop};
ghost use Rattle.rules.specs.RunFile.{total, frame_length, body, parse};
ghost use Rattle.rules.proofs.Laws.Fixed.{frames_here, entry_here};
ghost use Rattle.file_checks.specs.Said.{said_body, said_run, said_parsed};

use littles::{FRAME_LENGTH, get4, get8};

// A body that was read: the place after it, and its number of frames.
#[derive(Clone, Copy)]
pub struct Body {
    pub end: usize,
    pub frames: u64,
}

// A file that was read: its numbers of runs and frames.
#[derive(Clone, Copy)]
pub struct Held {
    pub runs: u64,
    pub frames: u64,
}

// The sum of the sizes of `n` frames from a place on.
fn sizes(b: &[u8], at: usize, n: usize) -> u64
    requires { (at + n * frame_length 1 ≤ length b.now) × (n < 4294967296) }
    ensures { result ≡ total (frames_here 1 n (drop at b.now)) }
{
    let mut sum: u64 = 0;
    for i in 0..n {
        sum += get4(b, at + i * FRAME_LENGTH + 8);
    }
    sum
}

// A body at a place: its fields, its frames, and their sizes summed.
#[tactic(auto, using(crate::proofs::Bodies::body_small, crate::proofs::Bodies::body_over, crate::proofs::Bodies::body_none, crate::proofs::Bodies::body_wrong, crate::proofs::Bodies::body_right))]
fn check_body(b: &[u8], at: usize) -> Option<Body>
    requires { at ≤ length b.now }
    ensures { result ≡ said_body 1 at (body 1 (drop at b.now)) }
{
    let room = b.len() - at;
    if room < 20 {
        return None;
    }
    let said = get8(b, at + 8);
    let count = get4(b, at + 16);
    let n = count as usize;
    if n == 0 {
        return None;
    }
    let frames = n * FRAME_LENGTH;
    if room - 20 < frames {
        return None;
    }
    let sum = sizes(b, at + 20, n);
    if said != sum {
        return None;
    }
    Some(Body {
        end: at + 20 + frames,
        frames: count,
    })
}

// A body at a place, which its entry in the contents must give, and its length.
#[tactic(auto, using(crate::proofs::Entries::entry_none, crate::proofs::Entries::entry_off, crate::proofs::Entries::entry_long, crate::proofs::Entries::entry_fits))]
fn check_run(b: &[u8], entry: usize, at: usize) -> Option<Body>
    requires { (at ≤ length b.now) × (entry + 8 ≤ length b.now) }
    ensures { result ≡ said_run 1 at (entry_here (drop entry b.now)) (body 1 (drop at b.now)) }
{
    let body = check_body(b, at)?;
    let offset = get4(b, entry);
    let long = get4(b, entry + 4);
    let begins = at as u64;
    let ends = body.end as u64;
    if offset != begins {
        return None;
    }
    if offset + long != ends {
        return None;
    }
    Some(body)
}

// The whole file: what the rules read in it, from the version on.
#[tactic(auto, using(crate::proofs::Loop::too_many, crate::proofs::Loop::passed_first, crate::proofs::Loop::passed_next))]
pub fn check_runs(b: &[u8]) -> Option<Held>
    requires { 8 ≤ length b.now }
    ensures { result ≡ said_parsed (parse 1 b.now) }
{
    let runs = get4(b, 4);
    let n = runs as usize;
    if b.len() - 8 < n * 8 {
        return None;
    }
    let mut at = 8 + n * 8;
    let mut frames: u64 = 0;
    for i in 0..n {
        let body = check_run(b, 8 + i * 8, at)?;
        at = body.end;
        frames += body.frames;
    }
    if at != b.len() {
        return None;
    }
    Some(Held { runs, frames })
}
