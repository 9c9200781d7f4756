// Ticket 9: the ceiling on union work for a number of frames. It takes no tables.
#![tactic(auto)]

ghost use Rattle.std.specs.Prelude.{◌≡◌, ◌≤◌};
ghost use Rattle.rules.specs.Answers.{one_value, said};
ghost use Rattle.rules.specs.Ceiling.{highest_bit, union_ceiling};

use rules::{MOST_SLOTS, Refusal};

// The place of the highest one bit, from 0: the floor logarithm.
pub fn highest_bit(n: u64) -> u64
    requires { 1 ≤ n }
    ensures { result ≡ highest_bit n }
{
    63 - u64::leading_zeros(n) as u64
}

// All rewrites together are at most this, for `n` frames put in.
pub fn union_ceiling(n: u64) -> Result<u64, Refusal>
    ensures { said one_value result ≡ union_ceiling n }
{
    if !(1..=MOST_SLOTS).contains(&n) {
        return Err(Refusal::OutOfRange);
    }
    Ok(n * highest_bit(n))
}
