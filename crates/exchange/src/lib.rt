// Rules 13: four-key exchange.
// Ported from get_disjoint_shared_mut of surject_arena.rs, at four keys (triple_arena 0.15.1, NOTICE).
#![tactic(auto)]

ghost use Rattle.std.specs.Prelude.{◌≡◌, [], ◌∷◌};
ghost use Rattle.rules.specs.Tables.{state_of, value_of};
ghost use Rattle.rules.specs.Exchange.{all_differ, valued};
ghost use Rattle.rules.specs.Calls.{Ready, step, exchange};
ghost use Rattle.rules.specs.Answers.{old_values, after};
ghost use Rattle.rules.specs.Refusals.{outcome};
ghost use Rattle.exchange.specs.Asked.{FourHeaders, FourClassed};
ghost use Rattle.exchange.specs.Answered.{exchange_at};

use rules::{CLASS, FRAME, HEADER, Head, Key, Refusal, Step, VALUE};

// Refusals 4: no two of the classes are one.
fn all_differ(a: u64, b: u64, c: u64, d: u64) -> bool
    ensures { all_differ (a ∷ b ∷ c ∷ d ∷ []) ≡ result }
{
    a != b && a != c && a != d && b != c && b != d && c != d
}

// Each class gets its new value; the answer is the old ones.
fn store(shared: &mut [u64], a: u64, b: u64, c: u64, d: u64, values: [u64; 4]) -> [u64; 4]
    requires { FourHeaders shared.old a b c d }
    ensures { (result ≡ value_of shared.old a ∷ value_of shared.old b ∷ value_of shared.old c ∷ value_of shared.old d ∷ []) × (shared.new ≡ valued shared.old (a ∷ b ∷ c ∷ d ∷ []) values) }
{
    let first = slots::get(shared, HEADER, VALUE, a);
    let second = slots::get(shared, HEADER, VALUE, b);
    let third = slots::get(shared, HEADER, VALUE, c);
    let fourth = slots::get(shared, HEADER, VALUE, d);
    slots::put(shared, HEADER, a, VALUE, values[0]);
    slots::put(shared, HEADER, b, VALUE, values[1]);
    slots::put(shared, HEADER, c, VALUE, values[2]);
    slots::put(shared, HEADER, d, VALUE, values[3]);
    [first, second, third, fourth]
}

// The exchange on the slots of four live keys.
fn exchange_at(
    head: Head,
    elems: &[u64],
    shared: &mut [u64],
    w: u64,
    x: u64,
    y: u64,
    z: u64,
    values: [u64; 4],
) -> Result<Step<[u64; 4]>, Refusal>
    requires { FourClassed elems.now shared.old w x y z }
    ensures { after old_values head result elems.now shared.new [] ≡ outcome (state_of head elems.now shared.old) [] (exchange_at (state_of head elems.now shared.old) (w ∷ x ∷ y ∷ z ∷ []) values) }
{
    let a = slots::get(elems, FRAME, CLASS, w);
    let b = slots::get(elems, FRAME, CLASS, x);
    let c = slots::get(elems, FRAME, CLASS, y);
    let d = slots::get(elems, FRAME, CLASS, z);
    if !all_differ(a, b, c, d) {
        return Err(Refusal::SameClass);
    }
    let old = store(shared, a, b, c, d, values);
    Ok(Step::plain(head.forget(), old))
}

// Four keys and four new shared values go in together; the four old values come back in key order.
pub fn exchange_disjoint_shared(
    head: Head,
    elems: &[u64],
    shared: &mut [u64],
    keys: [Key; 4],
    values: [u64; 4],
) -> Result<Step<[u64; 4]>, Refusal>
    requires { Ready (state_of head elems.now shared.old) }
    ensures { after old_values head result elems.now shared.new [] ≡ step (state_of head elems.now shared.old) [] (exchange keys values) }
{
    let w = slots::find(head, elems, keys[0])?;
    let x = slots::find(head, elems, keys[1])?;
    let y = slots::find(head, elems, keys[2])?;
    let z = slots::find(head, elems, keys[3])?;
    exchange_at(head, elems, shared, w, x, y, z, values)
}
