// Lines found in an input that comes block by block.
ghost use Rattle.std.specs.Prelude.{◌≤◌, ◌<◌, ◌≡◌, [], ◌∷◌, length, MatchOption};
ghost use Rattle.rules.specs.Script.{newline, pieces};
ghost use Rattle.lines.specs.Stream.{Keeps};

use told::put_text;
use words::find;

// A part of a line comes after the `held` bytes of it; bytes for which there is no room are passed over.
pub fn hold(line: &mut [u8], held: usize, part: &[u8]) -> usize
    requires { held ≤ length line.old }
    ensures { Keeps line.old held part.now line.new result }
{
    let kept = part.len().min(line.len() - held);
    put_text(line, held, &part[..kept])
}

// What comes before the first newline of a block and what comes after it, if the block has one.
pub fn split_line(block: &[u8]) -> Option<(&[u8], &[u8])>
    ensures { MatchOption result (pieces newline block.now ≡ block.now ∷ [])
        (λ split. (pieces newline block.now ≡ split.0.now ∷ pieces newline split.1.now) × (length split.1.now < length block.now)) }
{
    let end = find(block, b'\n')?;
    Some((&block[..end], &block[end + 1..]))
}
