// Run files at the host's door: the writer has the gate before it, the reader a door of its own. Nothing is required of the caller.
#![tactic(auto, using(gate::proofs::Gates::past))]

ghost use Rattle.std.specs.Prelude.{◌≡◌, []};
ghost use Rattle.rules.specs.Tables.{state_of};
ghost use Rattle.rules.specs.Answers.{no_values, one_value, leaves, said, after};
ghost use Rattle.rules.specs.Calls.{AtDoor, write_file};
ghost use Rattle.rules.specs.ReadFile.{read_step};

use gate::gate;
use rules::{Head, Refusal, Step};

// Ticket 11: all runs into the lent bytes; the answer is how many bytes.
pub fn write_file(
    head: Head,
    elems: &[u64],
    shared: &[u64],
    file: &mut [u8],
) -> Result<u64, Refusal>
    ensures { AtDoor (state_of head elems.now shared.now) file.old write_file (leaves head elems.now shared.now file.new (said one_value result)) }
{
    gate(head, elems, shared)?;
    file_writes::write_file(head, elems, shared, file)
}

// Ticket 11: the file's runs in fresh tables; it gives 1, 9, 11, 6 and 5.
pub fn read_file(
    head: Head,
    elems: &mut [u64],
    shared: &mut [u64],
    file: &[u8],
) -> Result<Step<()>, Refusal>
    ensures { after no_values head result elems.new shared.new [] ≡ read_step (state_of head elems.old shared.old) file.now }
{
    file_reads::read_file(head, elems, shared, file)
}
