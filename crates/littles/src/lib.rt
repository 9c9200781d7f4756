// Little-endian numbers in lent bytes (Ticket 11).
#![tactic(auto)]

ghost use Rattle.std.specs.Prelude.{◌≡◌, ◌+◌, ◌≤◌, ◌<◌, length, drop};
ghost use Rattle.std.proofs.lemmas.List.Edits.{sets};
ghost use Rattle.rules.specs.Bytes.{little, value, limit};

// The version of the run files that are written and read, and the bytes to a frame; in the rules, old_reader and frame_length.
pub const VERSION: u64 = 1;

pub const FRAME_LENGTH: usize = 12;

// The number of so many bytes at a place.
fn get<const WIDTH: usize>(b: &[u8], at: usize) -> u64
    requires { (at + WIDTH ≤ length b.now) × (WIDTH ≤ 8) }
    ensures { (result ≡ value WIDTH (drop at b.now)) × (result < limit WIDTH) }
{
    let mut bytes = [0; 8];
    bytes[..WIDTH].copy_from_slice(&b[at..at + WIDTH]);
    u64::from_le_bytes(bytes)
}

// The low bytes of a number are stored at a place.
fn put<const WIDTH: usize>(out: &mut [u8], at: usize, n: u64)
    requires { (at + WIDTH ≤ length out.old) × (WIDTH ≤ 8) }
    ensures { out.new ≡ sets out.old at (little WIDTH n) }
{
    out[at..at + WIDTH].copy_from_slice(&n.to_le_bytes()[..WIDTH]);
}

// The u32 at a place, and the u64. The laws named here say the same of bytes and halves read apart, which the wrong programs do.
#[tactic(auto, using(crate::proofs::Cells::value_at4))]
pub fn get4(b: &[u8], at: usize) -> u64
    requires { at + 4 ≤ length b.now }
    ensures { (result ≡ value 4 (drop at b.now)) × (result < 4294967296) }
{
    get::<4>(b, at)
}

#[tactic(auto, using(crate::proofs::Cells::value_at8))]
pub fn get8(b: &[u8], at: usize) -> u64
    requires { at + 8 ≤ length b.now }
    ensures { result ≡ value 8 (drop at b.now) }
{
    get::<8>(b, at)
}

#[tactic(auto, using(crate::proofs::Cells::sets_bytes))]
pub fn put4(out: &mut [u8], at: usize, n: u64)
    requires { at + 4 ≤ length out.old }
    ensures { out.new ≡ sets out.old at (little 4 n) }
{
    put::<4>(out, at, n);
}

#[tactic(auto, using(crate::proofs::Cells::sets_eight))]
pub fn put8(out: &mut [u8], at: usize, n: u64)
    requires { at + 8 ≤ length out.old }
    ensures { out.new ≡ sets out.old at (little 8 n) }
{
    put::<8>(out, at, n);
}
