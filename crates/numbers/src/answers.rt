// What an answer is at the host: the number as the result, with the cause of 3 above it, and its numbers in `out`, which a refusal leaves as it was.
ghost use Rattle.std.specs.Prelude.{◌≡◌, ℕ, List, [], get_or};
ghost use Rattle.rules.specs.Refusals.{number_of, cause_number, values_of, Said, said_refused, said_accepted};
ghost use Rattle.rules.specs.Answers.{no_values, one_value, yes_or_no, joined_values, seal_values, removed_values, old_values, said};
ghost use Rattle.rules.specs.Runs.{key_values};
ghost use Rattle.numbers.specs.Numbers.{Answered, result_of, values, values_over, removal_numbers};

use rules::{Cause, Joined, Key, Refusal, Removed, Rest, Seal};

// Refusals 1 to 13.
pub fn number_of(r: Refusal) -> u64
    ensures { result ≡ number_of r }
{
    match r {
        Refusal::Shape => 1,
        Refusal::Unsound => 2,
        Refusal::Dead(_) => 3,
        Refusal::SameClass => 4,
        Refusal::NoElement => 5,
        Refusal::NoShared => 6,
        Refusal::Short => 7,
        Refusal::Malformed => 8,
        Refusal::NoFile => 9,
        Refusal::Nothing => 10,
        Refusal::Version => 11,
        Refusal::Sealed => 12,
        Refusal::OutOfRange => 13,
    }
}

// Ticket 5: the causes of 3.
fn cause_number(cause: Cause) -> u64
    ensures { result ≡ cause_number cause }
{
    match cause {
        Cause::NoSlot => 1,
        Cause::FreeSlot => 2,
        Cause::OtherGeneration => 3,
    }
}

// Ticket 5: the cause that a refusal carries, 0 for none.
pub fn cause_of(r: Refusal) -> u64
    ensures { result ≡ get_or (values_of r []) 0 0 }
{
    match r {
        Refusal::Dead(cause) => cause_number(cause),
        _ => 0,
    }
}

// Ticket 5: what a refusal has for a result, the cause of 3 above its number.
pub fn result_of(r: Refusal) -> u64
    ensures { result ≡ result_of (said_refused r) }
{
    number_of(r) + 256 * cause_of(r)
}

// An accepted answer as the `N` numbers that an entry writes to `out`.
pub trait Numbers<const N: usize> {
    ghost values: { Self → List ℕ };

    ghost shown: { Said → List ℕ };

    fn numbers(self, over: bool) -> [u64; N]
        ensures { result ≡ shown (said_accepted (values self) over) };
}

impl Numbers<0> for () {
    ghost values = { no_values };

    ghost shown = { values };

    fn numbers(self, _over: bool) -> [u64; 0] {
        []
    }
}

// The overflow mark alone.
impl Numbers<1> for () {
    ghost values = { no_values };

    ghost shown = { values_over };

    fn numbers(self, over: bool) -> [u64; 1] {
        [u64::from(over)]
    }
}

impl Numbers<1> for u64 {
    ghost values = { one_value };

    ghost shown = { values };

    fn numbers(self, _over: bool) -> [u64; 1] {
        [self]
    }
}

// One number and the overflow mark.
impl Numbers<2> for u64 {
    ghost values = { one_value };

    ghost shown = { values_over };

    fn numbers(self, over: bool) -> [u64; 2] {
        [self, u64::from(over)]
    }
}

// Yes or no.
impl Numbers<1> for bool {
    ghost values = { yes_or_no };

    ghost shown = { values };

    fn numbers(self, _over: bool) -> [u64; 1] {
        [u64::from(self)]
    }
}

// The key of the frame that was put in.
impl Numbers<2> for Key {
    ghost values = { key_values };

    ghost shown = { values };

    fn numbers(self, _over: bool) -> [u64; 2] {
        [self.slot, self.generation]
    }
}

// The removed shared value, the kept class's key, the number of class entries rewritten.
impl Numbers<4> for Joined {
    ghost values = { joined_values };

    ghost shown = { values };

    fn numbers(self, _over: bool) -> [u64; 4] {
        [self.was, self.kept.slot, self.kept.generation, self.moved]
    }
}

// The header's value and count.
impl Numbers<2> for Seal {
    ghost values = { seal_values };

    ghost shown = { values };

    fn numbers(self, _over: bool) -> [u64; 2] {
        [self.value, self.count]
    }
}

// The payload, whether it was the run's last frame, then the shared value, and the overflow mark.
impl Numbers<4> for Removed {
    ghost values = { removed_values };

    ghost shown = { removal_numbers };

    fn numbers(self, over: bool) -> [u64; 4] {
        let mark = u64::from(over);
        match self.rest {
            Rest::GoesOn => [self.payload, 0, 0, mark],
            Rest::Last(value) => [self.payload, 1, value, mark],
        }
    }
}

// Four old values, in key order.
impl Numbers<4> for [u64; 4] {
    ghost values = { old_values };

    ghost shown = { values };

    fn numbers(self, _over: bool) -> [u64; 4] {
        self
    }
}

// What a call that changes no head answers.
pub fn told<T: Numbers<N>, const N: usize>(answer: Result<T, Refusal>, out: &mut [u64; N]) -> u64
    ensures { Answered T.shown (said T.values answer) out.old result out.new }
{
    match answer {
        Ok(value) => {
            *out = value.numbers(false);
            0
        }
        Err(refusal) => result_of(refusal),
    }
}
