// The script program's standard input and output (Script): a block read, and bytes handed to the writer and counted.
#![tactic(auto)]

ghost use Rattle.std.specs.Prelude.{◌≡◌, ℕ, ◌≤◌, List, [], ◌++◌, length, take};
ghost use Rattle.stdio.specs.Handed.{Handed};

use std::io::{Read, Stdin, Stdout};

// The writer, and how many bytes went to it. Its fields are this crate's own: it begins at none, and only `send` writes and adds to it.
#[derive(Drop)]
pub struct Sent {
    to: Stdout,
    count: u64,
}

impl Sent {
    pub fn nothing(to: Stdout) -> Sent
        ensures { Handed result [] }
    {
        Sent { to, count: 0 }
    }

    // Bytes are handed to the writer. What becomes of them there, and whether the write fails, no contract of the kit says.
    pub fn send(&mut self, bytes: &[u8])
        ensures { (gone : List ℕ) → Handed self.old gone → Handed self.new (gone ++ bytes.now) }
    {
        let _ = self.to.write_all(bytes);
        self.count = self.count.wrapping_add(bytes.len() as u64);
    }
}

// How many bytes of the input came into the block: none at its end, or where the read fails.
pub fn receive(from: &mut Stdin, block: &mut [u8]) -> usize
    ensures { (result ≤ length block.new) × (result ≡ length (take result block.new)) }
{
    from.read(block).unwrap_or(0)
}
