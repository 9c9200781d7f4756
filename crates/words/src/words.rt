// A line's words, which single spaces part, and the numbers among them.
ghost use Rattle.std.specs.Prelude.{ℕ, ◌+◌, ◌≤◌, ◌≡◌, List, [], ◌∷◌, position, ◌==◌, MatchOption, IfSome};
ghost use Rattle.std.proofs.Math.Option.{some, none};
ghost use Rattle.rules.specs.Script.{u32, space, pieces, number, numbers, both};
ghost use Rattle.words.specs.Words.{left, option, key_before, IsDigit};

use rules::Key;

// The bounds of `i`, `g` and `z`, and of `t` and `s`.
pub const U32: u64 = u32::MAX as u64;

pub const U64: u64 = u64::MAX;

// The digit of a byte, if it is one.
fn digit(byte: u8) -> Option<u64>
    ensures { IsDigit byte result }
{
    match byte {
        b'0'..=b'9' => Some(u64::from(byte - b'0')),
        _ => None,
    }
}

// Script: decimal without leading zeros, at most `most`.
pub fn number(word: &[u8], most: u64) -> Option<u64>
    requires { 9 ≤ most }
    ensures read { number most word.now ≡ option result }
    ensures bound { IfSome result (λ n. n ≤ most) }
{
    let first = *word.first()?;
    if first == b'0' && word.len() > 1 {
        return None;
    }
    let mut value = digit(first)?;
    for byte in &word[1..] {
        let digit = digit(*byte)?;
        if (most - digit) / 10 < value {
            return None;
        }
        value = value * 10 + digit;
    }
    Some(value)
}

// Where a byte first stands, if it does.
pub fn find(bytes: &[u8], sought: u8) -> Option<usize>
    ensures { result ≡ position (λ byte. byte == sought) bytes.now }
{
    bytes.iter().position(|byte| *byte == sought)
}

// The words of a line that are still to be taken: none past its end.
#[derive(Drop)]
pub struct Words<'a> {
    rest: Option<&'a [u8]>,
}

impl<'a> Words<'a> {
    pub fn new(line: &'a [u8]) -> Words<'a>
        ensures { left result ≡ pieces space line.now }
    {
        Words { rest: Some(line) }
    }

    // The next word, if there is one.
    pub fn next(&mut self) -> Option<&'a [u8]>
        ensures { MatchOption result (left self.old ≡ []) (λ word. left self.old ≡ word.now ∷ left self.new) }
    {
        let rest = self.rest?;
        match find(rest, b' ') {
            Some(end) => {
                self.rest = Some(&rest[end + 1..]);
                Some(&rest[..end])
            }
            None => {
                self.rest = None;
                Some(rest)
            }
        }
    }

    // The next word as a number, if there is one and it is a number of at most `most`.
    pub fn number(&mut self, most: u64) -> Option<u64>
        requires { 9 ≤ most }
        ensures taken { (mosts : List ℕ) → numbers (most ∷ mosts) (left self.old) ≡ both (option result) (numbers mosts (left self.new)) }
        ensures bound { IfSome result (λ n. n ≤ most) }
    {
        number(self.next()?, most)
    }

    // The next two words as a key.
    pub fn key(&mut self) -> Option<Key>
        ensures { (mosts : List ℕ) → numbers (u32 ∷ u32 ∷ mosts) (left self.old) ≡ key_before result (numbers mosts (left self.new)) }
    {
        let slot = self.number(U32)?;
        let generation = self.number(U32)?;
        Some(Key { slot, generation })
    }

    // Nothing, if no word is left.
    pub fn end(&self) -> Option<()>
        ensures { MatchOption result (numbers [] (left self.now) ≡ none) (λ done. numbers [] (left self.now) ≡ some []) }
    {
        match self.rest {
            Some(_) => None,
            None => Some(()),
        }
    }
}
