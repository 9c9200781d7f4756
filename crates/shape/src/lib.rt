// The shape (Refusals 1): capacities in range, and tables as long as they say.
#![tactic(auto)]

ghost use Rattle.std.specs.Prelude.{◌≡◌, ◌≤◌};
ghost use Rattle.rules.specs.Tables.{state_of};
ghost use Rattle.rules.specs.Sound as sound;
ghost use Rattle.rules.specs.Refusals as refusals;

use rules::{FRAME, HEADER, Head, MOST_SLOTS};

// Refusals 1, of one table.
#[tactic(auto, unfolding(rules::specs::Sound::fits))]
pub fn fits(capacity: u64, width: u64, table: &[u64]) -> bool
    requires { width ≤ 64 }
    ensures { sound.fits capacity width table.now ≡ result }
{
    (1..=MOST_SLOTS).contains(&capacity) && table.len() as u64 == capacity * width
}

// Refusals 1, of both.
#[tactic(auto, unfolding(rules::specs::Sound::both_fit))]
pub fn both_fit(elems: &[u64], shared: &[u64], frames: u64, headers: u64) -> bool
    ensures { (head : Head) → sound.both_fit (state_of head elems.now shared.now) frames headers ≡ result }
{
    fits(frames, FRAME, elems) && fits(headers, HEADER, shared)
}

// Refusals 1, of a state.
pub fn is_shaped(head: Head, elems: &[u64], shared: &[u64]) -> bool
    ensures { refusals.shaped (state_of head elems.now shared.now) ≡ result }
{
    both_fit(elems, shared, head.elems.capacity, head.shared.capacity)
}
