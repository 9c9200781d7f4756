// The same two at the host's door: nothing is required of the caller.
ghost use Rattle.std.specs.Prelude.{[]};
ghost use Rattle.rules.specs.Tables.{state_of};
ghost use Rattle.rules.specs.Runs.{key_values};
ghost use Rattle.rules.specs.Calls.{AtDoor, insert, remove};
ghost use Rattle.rules.specs.Answers.{leaves, said};
ghost use Rattle.inplace.specs.Taken.{said_taken};

use crate::TakenOut;
use rules::{Head, Key, Refusal};

// Rules 5, insert.
pub fn insert_in_place(
    head: &mut Head,
    elems: &mut [u64],
    shared: &mut [u64],
    at: Key,
    payload: u64,
    size: u32,
) -> Result<Key, Refusal>
    ensures { AtDoor (state_of head.old elems.old shared.old) [] (insert at payload size) (leaves head.new elems.new shared.new [] (said key_values result)) }
{
    let inserted = door_runs::insert(*head, elems, shared, at, payload, size)?;
    *head = inserted.head;
    Ok(inserted.answer)
}

// Rules 7, remove.
pub fn remove_in_place(
    head: &mut Head,
    elems: &mut [u64],
    shared: &mut [u64],
    key: Key,
) -> Result<TakenOut, Refusal>
    ensures { AtDoor (state_of head.old elems.old shared.old) [] (remove key) (leaves head.new elems.new shared.new [] (said_taken result)) }
{
    let taken = door_runs::remove_element(*head, elems, shared, key)?;
    *head = taken.head;
    Ok(TakenOut {
        removed: taken.answer,
        over: taken.over,
    })
}
