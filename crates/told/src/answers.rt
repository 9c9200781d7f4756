// Answers printed as Script says; each function answers the place after what it wrote.
ghost use Rattle.std.specs.Prelude.{◌+◌, ◌*◌, ◌≤◌, ◌≡◌, ℕ, List, false, [], ◌∷◌, ◌++◌, length};
ghost use Rattle.rules.specs.Runs.{key_values};
ghost use Rattle.rules.specs.Refusals.{number_of, values_of, cause_number, said_accepted, Outcome};
ghost use Rattle.rules.specs.Answers.{one_value, joined_values, removed_values, said, said_step, head_after};
ghost use Rattle.rules.specs.Script.{bytes, decimal, key_text, union_text, ring_text, remove_text, cause_text, refused_text};
ghost use Rattle.told.specs.Put.{Put};
ghost use Rattle.told.specs.Texts.{spaced, text_of, rest_text, Places};
ghost use Rattle.told.specs.Told.{Told};
ghost use Rattle.std.proofs.Common.{rules};

use crate::text::{put_decimal, put_text};
use numbers::answers::number_of;
use rules::{Cause, Head, Joined, Key, Refusal, Removed, Rest, Step};

// Ticket 5: the digit of a cause.
fn cause_digit(cause: Cause) -> u8
    ensures { result ≡ 48 + cause_number cause }
{
    match cause {
        Cause::NoSlot => b'1',
        Cause::FreeSlot => b'2',
        Cause::OtherGeneration => b'3',
    }
}

// Ticket 5: ` cause C`, for a refusal that carries one.
fn put_cause(out: &mut [u8], at: usize, cause: Cause) -> usize
    requires { at + 8 ≤ length out.old }
    ensures put { Put out.old at (cause_text (cause_number cause ∷ [])) out.new result }
    ensures upper_bound { result ≤ at + 8 }
{
    let digit = put_text(out, at, b" cause ");
    out[digit] = cause_digit(cause);
    digit + 1
}

pub fn put_refusal(out: &mut [u8], at: usize, refusal: Refusal) -> usize
    requires { at + 28 ≤ length out.old }
    ensures put { Put out.old at (refused_text (number_of refusal) (values_of refusal [])) out.new result }
    ensures upper_bound { result ≤ at + 28 }
{
    let number = put_text(out, at, b"refused ");
    let end = put_decimal(out, number, number_of(refusal));
    match refusal {
        Refusal::Dead(cause) => put_cause(out, end, cause),
        _ => end,
    }
}

fn put_key(out: &mut [u8], at: usize, key: Key) -> usize
    requires { at + 41 ≤ length out.old }
    ensures put { Put out.old at (decimal key.slot ++ bytes " " ++ decimal key.generation) out.new result }
    ensures upper_bound { result ≤ at + 41 }
{
    let space = put_decimal(out, at, key.slot);
    let generation = put_text(out, space, b" ");
    put_decimal(out, generation, key.generation)
}

// Script: removal adds ` shared S` for a last frame.
fn put_rest(out: &mut [u8], at: usize, rest: Rest) -> usize
    requires { at + 28 ≤ length out.old }
    ensures put { Put out.old at (rest_text rest) out.new result }
    ensures upper_bound { result ≤ at + 28 }
{
    match rest {
        Rest::GoesOn => at,
        Rest::Last(value) => {
            let number = put_text(out, at, b" shared ");
            put_decimal(out, number, value)
        }
    }
}

// The answer of a call that changes the head: how it is printed, in at most how many bytes.
pub trait Answer {
    ghost values: { Self → List ℕ };

    ghost print: { Outcome → List ℕ };

    ghost most: { ℕ };

    fn put(self, out: &mut [u8], at: usize, over: bool) -> usize
        requires { at + most ≤ length out.old }
        ensures put { Put out.old at (text_of print (said_accepted (values self) over) []) out.new result }
        ensures upper_bound { result ≤ at + most };

    // A refusal has room.
    ghost room: { 28 ≤ most };
}

// The key of a new frame.
impl Answer for Key {
    ghost values = { key_values };

    ghost print = { key_text };

    ghost most = { 45 };

    ghost room = { Prim.search rules };

    fn put(self, out: &mut [u8], at: usize, _over: bool) -> usize {
        let place = put_text(out, at, b"key ");
        put_key(out, place, self)
    }
}

impl Answer for Joined {
    ghost values = { joined_values };

    ghost print = { union_text };

    ghost most = { 98 };

    ghost room = { Prim.search rules };

    fn put(self, out: &mut [u8], at: usize, _over: bool) -> usize {
        let value = put_text(out, at, b"was ");
        let word = put_decimal(out, value, self.was);
        let key = put_text(out, word, b" kept ");
        let word = put_key(out, key, self.kept);
        let number = put_text(out, word, b" moved ");
        put_decimal(out, number, self.moved)
    }
}

// Removal ends with ` over` on overflow.
impl Answer for Removed {
    ghost values = { removed_values };

    ghost print = { remove_text };

    ghost most = { 57 };

    ghost room = { Prim.search rules };

    fn put(self, out: &mut [u8], at: usize, over: bool) -> usize {
        let number = put_text(out, at, b"out ");
        let word = put_decimal(out, number, self.payload);
        let end = put_rest(out, word, self.rest);
        if over {
            return put_text(out, end, b" over");
        }
        end
    }
}

// Some numbers, each after a space.
fn put_numbers(out: &mut [u8], at: usize, numbers: &[u64]) -> usize
    requires { at + length numbers.now * 21 ≤ length out.old }
    ensures put { Put out.old at (spaced numbers.now) out.new result }
    ensures upper_bound { result ≤ at + length numbers.now * 21 }
{
    let mut next = at;
    for number in numbers {
        let place = put_text(out, next, b" ");
        next = put_decimal(out, place, *number);
    }
    next
}

// The ring's keys stand in `keys`, a slot and a generation each.
pub fn put_ring(out: &mut [u8], at: usize, answer: Result<u64, Refusal>, keys: &[u64]) -> usize
    requires { (at + 28 + length keys.now * 21 ≤ length out.old) × Places (said one_value answer) keys.now }
    ensures put { Put out.old at (text_of ring_text (said one_value answer) keys.now) out.new result }
    ensures upper_bound { result ≤ at + 28 + length keys.now * 21 }
{
    match answer {
        Ok(n) => {
            let number = put_text(out, at, b"ring ");
            let word = put_decimal(out, number, n);
            put_numbers(out, word, &keys[..(n * 2) as usize])
        }
        Err(refusal) => put_refusal(out, at, refusal),
    }
}

// The head after a line, and the place after what was printed.
#[derive(Clone, Copy)]
pub struct Obeyed {
    pub head: Head,
    pub next: usize,
}

// What a call hands back, told: its answer printed, beside the head that it leaves.
pub fn tell<T: Answer>(
    out: &mut [u8],
    at: usize,
    head: Head,
    answer: Result<Step<T>, Refusal>,
) -> Obeyed
    requires { at + T.most ≤ length out.old }
    ensures { Told T.print (said_step T.values answer) (head_after head answer) out.old at T.most out.new result }
{
    match answer {
        Ok(step) => {
            let next = step.answer.put(out, at, step.over);
            Obeyed {
                head: step.head,
                next,
            }
        }
        Err(refusal) => {
            let next = put_refusal(out, at, refusal);
            Obeyed { head, next }
        }
    }
}
