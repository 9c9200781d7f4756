// The head lent in place (last form of document 01): the writer's two calls, thin, over the steps by value.
#![tactic(auto)]

pub mod at_door;

ghost use Rattle.std.specs.Prelude.{◌≡◌, []};
ghost use Rattle.rules.specs.Tables.{state_of};
ghost use Rattle.rules.specs.Runs.{key_values};
ghost use Rattle.rules.specs.Calls.{Ready, step, insert, remove};
ghost use Rattle.rules.specs.Answers.{leaves, said};
ghost use Rattle.inplace.specs.Taken.{said_taken};

use rules::{Head, Key, Refusal, Removed};

// Removal's answer, and whether it says overflow.
#[derive(Clone, Copy)]
pub struct TakenOut {
    pub removed: Removed,
    pub over: bool,
}

// Rules 5, insert.
pub fn insert_in_place(
    head: &mut Head,
    elems: &mut [u64],
    shared: &mut [u64],
    at: Key,
    payload: u64,
    size: u32,
) -> Result<Key, Refusal>
    requires { Ready (state_of head.old elems.old shared.old) }
    ensures { leaves head.new elems.new shared.new [] (said key_values result) ≡ step (state_of head.old elems.old shared.old) [] (insert at payload size) }
{
    let inserted = inserts::insert(*head, elems, shared, at, payload, size)?;
    *head = inserted.head;
    Ok(inserted.answer)
}

// Rules 7, remove.
pub fn remove_in_place(
    head: &mut Head,
    elems: &mut [u64],
    shared: &mut [u64],
    key: Key,
) -> Result<TakenOut, Refusal>
    requires { Ready (state_of head.old elems.old shared.old) }
    ensures { leaves head.new elems.new shared.new [] (said_taken result) ≡ step (state_of head.old elems.old shared.old) [] (remove key) }
{
    let taken = removes::remove_element(*head, elems, shared, key)?;
    *head = taken.head;
    Ok(TakenOut {
        removed: taken.answer,
        over: taken.over,
    })
}
