// The tables of a sequence: each call is made on them at the host's door, and its answer is held to the record's.
use crate::calls::{Call, Frame};
use keyed::{is_drained, is_joined, is_list};
use names::Given;
use rules::{Head, Joined, Key, Refusal, Removed, Step};
use sample::Record;

// Slots of each table, and numbers to each table.
const SLOTS: u64 = 16;

const ELEMS: usize = 96;

const SHARED: usize = 80;

// The key of a frame that was given none: no table has slot 0.
const NEVER: Key = Key {
    slot: 0,
    generation: 0,
};

#[derive(Clone, Copy)]
pub struct Recorder {
    head: Head,
    elems: [u64; ELEMS],
    shared: [u64; SHARED],
    given: Given,
}

impl Recorder {
    // No tables yet.
    pub fn new() -> Self {
        Recorder {
            head: heads::unpack([0; 13]),
            elems: [0; ELEMS],
            shared: [0; SHARED],
            given: Given::new(),
        }
    }

    // Makes the record's call, and answers whether it said the same.
    pub fn replay(&mut self, sample: &Record) -> bool {
        match Call::from(sample) {
            Call::Fresh => sample.is_said(self.fresh()),
            Call::Check => sample.is_said(self.check()),
            Call::LenSurject(k) => sample.is_said(self.len_surject(k)),
            Call::InSameSurject(j, k) => sample.is_said(self.in_same_surject(j, k)),
            Call::Get(k) => sample.is_said(self.get(k)),
            Call::GetShared(k) => sample.is_said(self.get_shared(k)),
            Call::Set(k, payload) => sample.is_said(self.set(k, payload)),
            Call::SetShared(k, value) => sample.is_said(self.set_shared(k, value)),
            Call::Exchange(frames, values) => sample.is_said(self.exchange(frames, values)),
            Call::InsertSurject(new, payload, value) => {
                sample.is_said(self.insert_surject(new, payload, value))
            }
            Call::Insert(at, new, payload) => sample.is_said(self.insert(at, new, payload)),
            Call::Union(j, k) => is_joined(self.union(j, k), &self.given, sample),
            Call::RemoveElement(k) => {
                self.remove_element(k)
                    .is_some_and(|answer| sample.is_said(answer))
            }
            Call::RemoveShared(k) => {
                self.remove_shared(k)
                    .is_some_and(|answer| sample.is_said(answer))
            }
            Call::List(k) => self.is_list(k, sample),
            Call::Drain(k) => self.is_drained(k, sample),
            Call::DrainAll => sample.is_said(self.drain_all()),
            Call::Clear => self.clear().is_some_and(|answer| sample.is_said(answer)),
            Call::Compress(reset) => {
                self.compress(reset)
                    .is_some_and(|answer| sample.is_said(answer))
            }
        }
    }

    fn is_list(&self, k: Frame, sample: &Record) -> bool {
        let mut written = [0; 32];
        let key = self.key(k);
        let answer = door::list(self.head, &self.elems, &self.shared, key, &mut written);
        is_list(answer, &written, &self.given, sample)
    }

    fn is_drained(&mut self, k: Frame, sample: &Record) -> bool {
        let mut written = [0; ELEMS];
        let key = self.key(k);
        let step = door::drain(
            self.head,
            &mut self.elems,
            &mut self.shared,
            key,
            &mut written,
        );
        let answer = self.keep(step);
        is_drained(answer, &written, &self.given, sample)
    }

    fn key(&self, frame: Frame) -> Key {
        self.given.key(frame).unwrap_or(NEVER)
    }

    // An accepted call leaves its head.
    fn keep<T: Copy>(&mut self, step: Result<Step<T>, Refusal>) -> Result<T, Refusal> {
        let step = step?;
        self.head = step.head;
        Ok(step.answer)
    }

    // The same of a call that can say overflow, which is no answer of a record.
    fn keep_below<T: Copy>(
        &mut self,
        step: Result<Step<T>, Refusal>,
    ) -> Option<Result<T, Refusal>> {
        let answer = self.keep(step);
        match step {
            Ok(step) if step.over => None,
            _ => Some(answer),
        }
    }

    // The new frame's key is learned as it is given.
    fn learn(&mut self, new: Frame, step: Result<Step<Key>, Refusal>) -> Result<(), Refusal> {
        let key = self.keep(step)?;
        self.given.learn(new, key);
        Ok(())
    }

    // A sequence begins with new tables.
    fn fresh(&mut self) -> Result<(), Refusal> {
        let step = door::fresh(self.head, SLOTS, SLOTS, &mut self.elems, &mut self.shared);
        self.given = Given::new();
        self.keep(step)
    }

    fn check(&self) -> Result<(), Refusal> {
        door::check(self.head, &self.elems, &self.shared)
    }

    fn len_surject(&self, k: Frame) -> Result<u64, Refusal> {
        door::len_surject(self.head, &self.elems, &self.shared, self.key(k))
    }

    fn in_same_surject(&self, j: Frame, k: Frame) -> Result<bool, Refusal> {
        let j = self.key(j);
        let k = self.key(k);
        door::in_same_surject(self.head, &self.elems, &self.shared, j, k)
    }

    fn get(&self, k: Frame) -> Result<u64, Refusal> {
        door::get(self.head, &self.elems, &self.shared, self.key(k))
    }

    fn get_shared(&self, k: Frame) -> Result<u64, Refusal> {
        door::get_shared(self.head, &self.elems, &self.shared, self.key(k))
    }

    fn set(&mut self, k: Frame, payload: u64) -> Result<u64, Refusal> {
        let key = self.key(k);
        let step = door::set(self.head, &mut self.elems, &self.shared, key, payload);
        self.keep(step)
    }

    fn set_shared(&mut self, k: Frame, value: u64) -> Result<u64, Refusal> {
        let key = self.key(k);
        let step = door::set_shared(self.head, &self.elems, &mut self.shared, key, value);
        self.keep(step)
    }

    fn exchange(&mut self, frames: [Frame; 4], values: [u64; 4]) -> Result<[u64; 4], Refusal> {
        let keys = frames.map(|k| self.key(k));
        let shared = &mut self.shared;
        let step = door::exchange_disjoint_shared(self.head, &self.elems, shared, keys, values);
        self.keep(step)
    }

    fn insert_surject(&mut self, new: Frame, payload: u64, value: u64) -> Result<(), Refusal> {
        let elems = &mut self.elems;
        let step = door::insert_surject(self.head, elems, &mut self.shared, payload, value, 0);
        self.learn(new, step)
    }

    fn insert(&mut self, at: Frame, new: Frame, payload: u64) -> Result<(), Refusal> {
        let at = self.key(at);
        let step = door::insert(self.head, &mut self.elems, &mut self.shared, at, payload, 0);
        self.learn(new, step)
    }

    fn union(&mut self, j: Frame, k: Frame) -> Result<Joined, Refusal> {
        let j = self.key(j);
        let k = self.key(k);
        let step = door::union(self.head, &mut self.elems, &mut self.shared, j, k);
        self.keep(step)
    }

    fn remove_element(&mut self, k: Frame) -> Option<Result<Removed, Refusal>> {
        let key = self.key(k);
        let step = door::remove_element(self.head, &mut self.elems, &mut self.shared, key);
        self.keep_below(step)
    }

    fn remove_shared(&mut self, k: Frame) -> Option<Result<u64, Refusal>> {
        let key = self.key(k);
        let step = door::remove_shared(self.head, &mut self.elems, &mut self.shared, key);
        self.keep_below(step)
    }

    fn drain_all(&mut self) -> Result<u64, Refusal> {
        let mut written = [0; ELEMS];
        let step = door::drain_all(self.head, &mut self.elems, &mut self.shared, &mut written);
        self.keep(step)
    }

    fn clear(&mut self) -> Option<Result<(), Refusal>> {
        let step = door::clear(self.head, &mut self.elems, &mut self.shared);
        self.keep_below(step)
    }

    // Compression gives every frame a new key.
    fn compress(&mut self, reset: bool) -> Option<Result<(), Refusal>> {
        let mut scratch = [0; ELEMS];
        let elems = &mut self.elems;
        let step = door::compress_canonical(
            self.head,
            elems,
            &mut self.shared,
            &mut scratch,
            reset,
        );
        self.given.relearn(&self.elems);
        self.keep_below(step)
    }
}
