// Two recorders' tables at the host's door: 1 for the source, 1 for the target, 2; then the call at the inner door. Nothing is required of the caller.
#![tactic(auto)]

ghost use Rattle.std.specs.Prelude.{◌≡◌, true};
ghost use Rattle.rules.specs.Tables.{state_of};
ghost use Rattle.rules.specs.Refusals.{shaped};
ghost use Rattle.rules.specs.Undo.{Whole};
ghost use Rattle.rules.specs.Calls.{Is};
ghost use Rattle.rules.specs.TwoTables.{after_target, after_both};
ghost use Rattle.rules.specs.Copy.{AtCopy};
ghost use Rattle.rules.specs.Move.{AtMove};

use rules::{Head, Moved, Refusal, Step};

// Refusals, 2: what the head remembers is part of soundness (Ticket 7).
fn is_whole(head: Head, elems: &[u64], shared: &[u64]) -> bool
    requires { shaped (state_of head elems.now shared.now) ≡ true }
    ensures { Is (Whole (state_of head elems.now shared.now)) result }
{
    sound::is_sound(head, elems, shared) && undos::remembers(head, elems, shared)
}

// Ticket 10: copy a study to review tables; the target may hold anything of fitting shape.
pub fn clone_from(
    head: Head,
    elems: &mut [u64],
    shared: &mut [u64],
    source: Head,
    frames: &[u64],
    headers: &[u64],
) -> Result<Step<()>, Refusal>
    ensures { AtCopy (state_of head elems.old shared.old) (state_of source frames.now headers.now) (after_target head result elems.new shared.new (state_of source frames.now headers.now)) }
{
    if !shape::is_shaped(source, frames, headers) {
        return Err(Refusal::Shape);
    }
    if !shape::is_shaped(head, elems, shared) {
        return Err(Refusal::Shape);
    }
    if !is_whole(source, frames, headers) {
        return Err(Refusal::Unsound);
    }
    clones::clone_from(head, elems, shared, source, frames, headers)
}

// Ticket 12: move a study to other recorders' tables; whatever the target held goes, and the source is left as clear leaves it.
pub fn transfer_canonical(
    head: Head,
    elems: &mut [u64],
    shared: &mut [u64],
    generation: u32,
    source: Head,
    frames: &mut [u64],
    headers: &mut [u64],
) -> Result<Moved, Refusal>
    ensures { AtMove (state_of head elems.old shared.old) (state_of source frames.old headers.old) generation (after_both head source result elems.new shared.new frames.new headers.new) }
{
    if !shape::is_shaped(source, frames, headers) {
        return Err(Refusal::Shape);
    }
    if !shape::is_shaped(head, elems, shared) {
        return Err(Refusal::Shape);
    }
    if !is_whole(source, frames, headers) || !is_whole(head, elems, shared) {
        return Err(Refusal::Unsound);
    }
    moves::transfer_canonical(head, elems, shared, generation, source, frames, headers)
}
