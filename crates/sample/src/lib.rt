// A record of the sample, and whether what the door says is what the Rust said: each test is passed only where they agree
// (Running against the Rust).
#![tactic(auto)]

ghost use Rattle.std.specs.Prelude.{◌≡◌, ℕ, List, IfSome};
ghost use Rattle.rules.specs.Refusals.{said_refused};
ghost use Rattle.rules.specs.Answers.{said, no_values, one_value, yes_or_no, old_values};
ghost use Rattle.sample.specs.Sample.{refusal_of, count_of, answer_at, Listed, Agrees, removed_answers, OnlyIf};

use numbers::answers::number_of;
use rules::{Refusal, Removed, Rest};

// Places in a record: the refusal, how many answers, the first answer.
const REFUSED: usize = 9;

const COUNT: usize = 10;

const FIRST: usize = 11;

// A record's bytes, which rust/differential/src/sample.rs lays out.
#[derive(Clone, Copy)]
pub struct Record {
    pub bytes: [u8; 32],
}

impl Record {
    // The Rust accepted the call.
    pub fn is_accepted(&self) -> bool
        ensures { OnlyIf (0 ≡ refusal_of self.now.bytes) result }
    {
        self.bytes[REFUSED] == 0
    }

    // How many answers there are.
    pub fn count(&self) -> u8
        ensures { result ≡ count_of self.now.bytes }
    {
        self.bytes[COUNT]
    }

    // The answer at a place of the record.
    pub fn answer(&self, at: usize) -> Option<u8>
        ensures { IfSome result (λ n. n ≡ answer_at self.now.bytes at) }
    {
        let place = at.checked_add(FIRST)?;
        self.bytes.get(place).copied()
    }

    // The call was accepted, and a number is the answer at its place.
    pub fn is_answer(&self, at: usize, n: u64) -> bool
        ensures { OnlyIf ((0 ≡ refusal_of self.now.bytes) × (n ≡ answer_at self.now.bytes at)) result }
    {
        self.is_accepted() && self.answer(at).map(u64::from) == Some(n)
    }

    // The refusal is the record's.
    pub fn is_refused(&self, refusal: Refusal) -> bool
        ensures { OnlyIf (Agrees (said_refused refusal) self.now.bytes) result }
    {
        number_of(refusal) == u64::from(self.bytes[REFUSED])
    }

    // The refusal is the record's, or the answer's values are.
    pub fn is_said<T: Told>(&self, answer: Result<T, Refusal>) -> bool
        ensures { OnlyIf (Agrees (said T.values answer) self.now.bytes) result }
    {
        match answer {
            Ok(told) => told.is_told(self),
            Err(refusal) => self.is_refused(refusal),
        }
    }
}

// What an accepted call answers.
pub trait Told {
    ghost values: { Self → List ℕ };

    // The call was accepted, and the answer's values are the record's.
    fn is_told(self, sample: &Record) -> bool
        ensures { OnlyIf ((0 ≡ refusal_of sample.now.bytes) × Listed 0 (values self) sample.now.bytes) result };
}

impl Told for () {
    ghost values = { no_values };

    fn is_told(self, sample: &Record) -> bool {
        sample.is_accepted()
    }
}

impl Told for u64 {
    ghost values = { one_value };

    fn is_told(self, sample: &Record) -> bool {
        sample.is_answer(0, self)
    }
}

// Yes is 1 and no is 0.
impl Told for bool {
    ghost values = { yes_or_no };

    fn is_told(self, sample: &Record) -> bool {
        sample.is_answer(0, u64::from(self))
    }
}

// Four old values, in key order.
impl Told for [u64; 4] {
    ghost values = { old_values };

    fn is_told(self, sample: &Record) -> bool {
        sample.is_answer(0, self[0])
            && sample.is_answer(1, self[1])
            && sample.is_answer(2, self[2])
            && sample.is_answer(3, self[3])
    }
}

// A removal: the payload, and whether the run goes on without the frame, with its value if not.
impl Told for Removed {
    ghost values = { removed_answers };

    fn is_told(self, sample: &Record) -> bool {
        let (last, value) = match self.rest {
            Rest::GoesOn => (0, 0),
            Rest::Last(value) => (1, value),
        };
        sample.is_answer(0, self.payload) && sample.is_answer(1, last) && sample.is_answer(2, value)
    }
}
