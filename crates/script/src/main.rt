// The script program (Script): lines on standard input, a reply to each on standard output.
#![tactic(auto)]

ghost use Rattle.std.specs.Prelude.{ℕ, ◌≡◌, List, []};
ghost use Rattle.rules.specs.Script.{output};
ghost use Rattle.lines.specs.Stream.{fresh_state};
ghost use Rattle.stdio.specs.Handed.{Handed};
ghost use Rattle.blocks.specs.Progress.{Lent, Working, Doing, Reading, Ran};

use blocks::Program;
use rules::{BLANK, Head, Pool};
use std::io::{Stdin, Stdout};
use stdio::Sent;

// Script: the capacity of both tables.
const CAPACITY: u64 = 512;

// Rules 2: the program over zero tables.
fn fresh<'a>(
    to: Stdout,
    elems: &'a mut [u64],
    shared: &'a mut [u64],
    keys: &'a mut [u64],
    out: &'a mut [u8],
    line: &'a mut [u8],
) -> Program<'a>
    requires { Lent elems.old shared.old keys.old out.old line.old }
    ensures head { result.head ≡ fresh_state.head }
    ensures reading { Reading result }
{
    let pool = Pool::empty(CAPACITY);
    Program {
        head: Head {
            elems: pool,
            shared: pool,
            generation: 1,
            undo: BLANK,
        },
        elems,
        shared,
        keys,
        out,
        fill: 0,
        line,
        held: 0,
        sent: Sent::nothing(to),
    }
}

// The end of the input: the last line may lack its newline. What then stands in `out` is handed to the writer.
fn finish(program: &mut Program)
    requires { Working program.old }
    ensures { (input : List ℕ) → Doing input [] program.old → Handed program.new.sent (output input) }
{
    if program.held > 0 {
        program.answer();
    }
    let fill = program.fill;
    let out = std::mem::take(&mut program.out);
    program.sent.send(&out[..fill]);
}

// A proved loop has to end, and nothing says that an input does: the turns are counted down, from a number that no run uses up.
fn run(
    mut from: Stdin,
    to: Stdout,
    elems: &mut [u64],
    shared: &mut [u64],
    keys: &mut [u64],
    out: &mut [u8],
    line: &mut [u8],
    block: &mut [u8],
) -> Sent
    requires { Lent elems.old shared.old keys.old out.old line.old }
    ensures { Ran result }
{
    let mut program = fresh(to, elems, shared, keys, out, line);
    for _ in (0..u64::MAX).rev() {
        let received = stdio::receive(&mut from, block);
        if received == 0 {
            break;
        }
        program.feed(&block[..received]);
    }
    finish(&mut program);
    program.sent
}

fn main(rt: HostRuntime) {
    let mut elems = [0u64; 3072];
    let mut shared = [0u64; 2560];
    let mut keys = [0u64; 1024];
    let mut out = [0u8; 65536];
    let mut line = [0u8; 128];
    let mut block = [0u8; 65536];
    run(
        rt.stdin(),
        rt.stdout(),
        &mut elems,
        &mut shared,
        &mut keys,
        &mut out,
        &mut line,
        &mut block,
    );
}
