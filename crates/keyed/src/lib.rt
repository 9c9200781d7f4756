// Keys that the door says or writes, held to the frames that the Rust named.
#![tactic(auto)]

ghost use Rattle.std.specs.Prelude.{◌≤◌, ◌<◌, ◌≡◌, ◌^◌, Some, IfSome};
ghost use Rattle.sample.specs.Sample.{answer_at, key_of, key_at, JoinedAs, RingOf, ListsAs, ListedAs, DrainsAs, DrainedAs, OnlyIf};

use names::Given;
use rules::{Joined, Key, Refusal};
use sample::Record;

// Numbers to a key that `list` wrote, and to a frame that `drain` wrote.
const LISTED: usize = 2;

const DRAINED: usize = 6;

// The key at a place of what was written.
fn key_at(written: &[u64], at: usize) -> Option<Key>
    requires { at < 2 ^ 32 }
    ensures { IfSome result (λ key. key ≡ key_at written.now at) }
{
    let slot = *written.get(at)?;
    let generation = *written.get(at + 1)?;
    Some(Key { slot, generation })
}

// A key is that of an answer's frame.
fn is_key(at: usize, key: Key, given: &Given, sample: &Record) -> bool
    ensures { OnlyIf (Some key ≡ key_of given.now.keys (answer_at sample.now.bytes at)) result }
{
    let Some(frame) = sample.answer(at) else {
        return false;
    };
    given.key(frame) == Some(key)
}

// Keys that were written, `width` numbers apart, are those of the answer's frames.
fn is_ring(count: u8, width: usize, written: &[u64], given: &Given, sample: &Record) -> bool
    requires { width ≤ 6 }
    ensures { OnlyIf (RingOf count width written.now given.now.keys sample.now.bytes) result }
{
    for i in 0..usize::from(count) {
        let Some(key) = key_at(written, i * width) else {
            return false;
        };
        if !is_key(i, key, given, sample) {
            return false;
        }
    }
    true
}

// A union: the value that was, the kept key, and how many frames moved.
pub fn is_joined(answer: Result<Joined, Refusal>, given: &Given, sample: &Record) -> bool
    ensures { OnlyIf (JoinedAs answer given.now.keys sample.now.bytes) result }
{
    match answer {
        Ok(joined) => {
            sample.is_answer(0, joined.was)
                && is_key(1, joined.kept, given, sample)
                && sample.is_answer(2, joined.moved)
        }
        Err(refusal) => sample.is_refused(refusal),
    }
}

// A list: as many keys as the record has answers.
pub fn is_list(
    answer: Result<u64, Refusal>,
    written: &[u64],
    given: &Given,
    sample: &Record,
) -> bool
    ensures { OnlyIf (ListedAs answer written.now given.now.keys sample.now.bytes) result }
{
    match answer {
        Ok(n) => is_listed(n, written, given, sample),
        Err(refusal) => sample.is_refused(refusal),
    }
}

fn is_listed(n: u64, written: &[u64], given: &Given, sample: &Record) -> bool
    ensures { OnlyIf (ListsAs n written.now given.now.keys sample.now.bytes) result }
{
    let count = sample.count();
    sample.is_accepted() && n == u64::from(count) && is_ring(count, LISTED, written, given, sample)
}

// A drain: the ring, frame by frame, then its value.
pub fn is_drained(
    answer: Result<u64, Refusal>,
    written: &[u64],
    given: &Given,
    sample: &Record,
) -> bool
    ensures { OnlyIf (DrainedAs answer written.now given.now.keys sample.now.bytes) result }
{
    match answer {
        Ok(n) => is_drain(n, written, given, sample),
        Err(refusal) => sample.is_refused(refusal),
    }
}

fn is_drain(n: u64, written: &[u64], given: &Given, sample: &Record) -> bool
    ensures { OnlyIf (DrainsAs n written.now given.now.keys sample.now.bytes) result }
{
    let Some(count) = sample.count().checked_sub(1) else {
        return false;
    };
    let frames = usize::from(count);
    let Some(last) = (frames * DRAINED).checked_sub(2) else {
        return false;
    };
    let Some(value) = written.get(last) else {
        return false;
    };
    n == u64::from(count)
        && sample.is_answer(frames, *value)
        && is_ring(count, DRAINED, written, given, sample)
}
