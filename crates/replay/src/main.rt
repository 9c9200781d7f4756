// Replays a fixed sample of the Rust's answers at the host's door, and says whether any differs. The sample is made by
// `differential sample` (rust/differential/src/sample.rs says how a record lies); no Rust is at hand here.
#![tactic(auto)]

mod calls;
mod recorder;

use recorder::Recorder;
use sample::Record;
use std::io::{Read, Stdin};

// The most calls that are counted.
const MOST: u64 = 1000000;

// The next record, or none at the sample's end.
fn next_record(mut from: Stdin) -> Option<Record> {
    let mut bytes = [0; 32];
    from.read_exact(&mut bytes).ok()?;
    Some(Record { bytes })
}

// The number of calls made, with one more.
fn one_more(made: u64) -> u64 {
    if made < MOST { made + 1 } else { made }
}

// A print that fails is let go: to tell why would take one C function more (docs/TRUST.md).
fn main(rt: HostRuntime) {
    let mut recorder = Recorder::new();
    let mut made = 0;
    for _ in 0..u64::MAX {
        let Some(record) = next_record(rt.stdin()) else {
            break;
        };
        if !recorder.replay(&record) {
            let _ = print!(rt; "A CALL DIFFERS: ");
            break;
        }
        made = one_more(made);
    }
    let _ = println!(rt; "{made} calls said what the sample says");
}
