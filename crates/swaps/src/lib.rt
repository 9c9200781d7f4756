// Headers swapped into the order of their runs, as in the Rust: class entry k says where run k's header is, and where a swap took the one that stood at k.
// Ported from compress_canonical of surject_arena.rs, its swaps of headers (triple_arena 0.15.1, NOTICE).
#![tactic(auto)]

ghost use Rattle.rules.specs.Tables.{frame_width, header_width, class_of};
ghost use Rattle.slots.specs.Asked.{Within};
ghost use Rattle.swaps.specs.Swaps.{Trail, Followable, Exchanged, Brought, Permuting, Permuted};

use rules::{CLASS, FRAME, HEADER};
use slots::{get, put};

// Class entries followed from `at` past displaced slots, until one at or past the place. The slice stands behind a second reference so that the
// last call is a tail call, a loop when compiled: with the slice itself as parameter each of up to 65,536 levels would use stack (tests/archive).
fn follow(elems: &&[u64], place: u64, at: u64) -> u64
    requires { Followable elems.now.now place at }
    ensures { Trail (class_of elems.now.now) place at result }
{
    if place <= at {
        return at;
    }
    let entries = *elems;
    let next = get(entries, FRAME, CLASS, at);
    follow(elems, place, next)
}

// Where the header of the run at `place` is by now, if class entry `place` says that it was at `at`.
fn displaced(elems: &[u64], place: u64, at: u64) -> u64
    requires { Followable elems.now place at }
    ensures { Trail (class_of elems.now) place at result }
{
    follow(&elems, place, at)
}

// The slots `i` and `j` of a table are exchanged.
fn exchange_rows(t: &mut [u64], width: u64, i: u64, j: u64)
    requires { Within width t.old i × Within width t.old j }
    ensures { Exchanged width t.old i j t.new }
{
    for field in 0..width {
        let a = get(t, width, field, i);
        let b = get(t, width, field, j);
        put(t, width, i, field, b);
        put(t, width, j, field, a);
    }
}

// The header at `j` comes to slot `i`, and class entry `i` says where the one that stood there went.
fn bring(elems: &mut [u64], shared: &mut [u64], i: u64, j: u64)
    requires { Within header_width shared.old i × Within header_width shared.old j × Within frame_width elems.old i }
    ensures { Brought elems.old shared.old elems.new shared.new i j }
{
    if j == i {
        return;
    }
    exchange_rows(shared, HEADER, i, j);
    put(elems, FRAME, i, CLASS, j);
}

// Pass 2: the header of run i comes to slot i, for each of the `runs` runs.
pub fn sort(elems: &mut [u64], shared: &mut [u64], runs: u64)
    requires { Permuting runs elems.old shared.old }
    ensures { Permuted runs elems.old shared.old elems.new shared.new }
{
    for i in 1..runs + 1 {
        let first = get(elems, FRAME, CLASS, i);
        let j = displaced(elems, i, first);
        bring(elems, shared, i, j);
    }
}
