// Union (Rules 6) at the inner door: equal to its rule, on a ready state.
// Ported from union of surject_arena.rs (triple_arena 0.15.1, NOTICE).
#![tactic(auto)]

ghost use Rattle.std.specs.Prelude.{◌≡◌, [], if◌then◌else◌};
ghost use Rattle.rules.specs.Tables.{state_of};
ghost use Rattle.rules.specs.Refusals.{outcome};
ghost use Rattle.rules.specs.Runs.{keeping};
ghost use Rattle.rules.specs.Calls.{Ready, step, union};
ghost use Rattle.rules.specs.Answers.{joined_values, after};
ghost use Rattle.unions.specs.Union.{BothLive, union_at};

use rules::{CLASS, COUNT, FRAME, HEADER, Head, Joined, Key, Memory, Refusal, Step, TOTAL, VALUE};

// Which slot's class is kept, which one's goes, and the key of the class kept.
#[derive(Clone, Copy)]
pub struct Roles {
    pub keeps: u64,
    pub goes: u64,
    pub kept: Key,
}

// If the first class is smaller, the keys change roles.
fn assign(smaller: bool, x: u64, y: u64, j: Key, k: Key) -> Roles
    ensures { result ≡ (if smaller then record { keeps = y; goes = x; kept = k } else record { keeps = x; goes = y; kept = j }) }
{
    if smaller {
        return Roles {
            keeps: y,
            goes: x,
            kept: k,
        };
    }
    Roles {
        keeps: x,
        goes: y,
        kept: j,
    }
}

// The class of `x` is kept, and that of `y` goes: its entries are rewritten before the links are exchanged.
fn join(
    head: Head,
    elems: &mut [u64],
    shared: &mut [u64],
    x: u64,
    y: u64,
    kept: Key,
) -> Step<Joined>
    requires { BothLive (state_of head elems.old shared.old) x y }
    ensures { after joined_values head (Ok result) elems.new shared.new [] ≡ outcome (state_of head elems.old shared.old) [] (keeping (state_of head elems.old shared.old) x y kept) }
{
    let keeps = slots::get(elems, FRAME, CLASS, x);
    let goes = slots::get(elems, FRAME, CLASS, y);
    let size = slots::get(shared, HEADER, COUNT, keeps);
    let moved = slots::get(shared, HEADER, COUNT, goes);
    let was = slots::get(shared, HEADER, VALUE, goes);
    let total = slots::get(shared, HEADER, TOTAL, keeps);
    let added = slots::get(shared, HEADER, TOTAL, goes);
    slots::rewrite(elems, moved, y, keeps);
    slots::exchange(elems, x, y);
    slots::recount(shared, keeps, size + moved, total + added);
    let memory = Memory {
        kept: x,
        gone: y,
        moved,
        value: was,
    };
    let mut next = slots::free_header(head, shared, goes);
    next.undo = memory;
    Step::plain(next, Joined { was, kept, moved })
}

// Union of two live slots: the arguments are chosen, then joined by one call.
fn union_at(
    head: Head,
    elems: &mut [u64],
    shared: &mut [u64],
    x: u64,
    y: u64,
    j: Key,
    k: Key,
) -> Result<Step<Joined>, Refusal>
    requires { BothLive (state_of head elems.old shared.old) x y }
    ensures { after joined_values head result elems.new shared.new [] ≡ outcome (state_of head elems.old shared.old) [] (union_at (state_of head elems.old shared.old) x y j k) }
{
    let first = slots::get(elems, FRAME, CLASS, x);
    let second = slots::get(elems, FRAME, CLASS, y);
    if first == second {
        return Err(Refusal::SameClass);
    }
    if slots::is_sealed(head, elems, shared, x) {
        return Err(Refusal::Sealed);
    }
    if slots::is_sealed(head, elems, shared, y) {
        return Err(Refusal::Sealed);
    }
    let first_size = slots::get(shared, HEADER, COUNT, first);
    let second_size = slots::get(shared, HEADER, COUNT, second);
    let role = assign(first_size < second_size, x, y, j, k);
    Ok(join(head, elems, shared, role.keeps, role.goes, role.kept))
}

// Rules 6, union.
pub fn union(
    head: Head,
    elems: &mut [u64],
    shared: &mut [u64],
    j: Key,
    k: Key,
) -> Result<Step<Joined>, Refusal>
    requires { Ready (state_of head elems.old shared.old) }
    ensures { after joined_values head result elems.new shared.new [] ≡ step (state_of head elems.old shared.old) [] (union j k) }
{
    let x = slots::find(head, elems, j)?;
    let y = slots::find(head, elems, k)?;
    union_at(head, elems, shared, x, y, j, k)
}
