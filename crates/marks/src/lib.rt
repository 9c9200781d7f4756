// A set of numbers as bits of lent words, 64 to a word: 1,024 words hold those below 65,536.
#![tactic(auto)]

ghost use Rattle.std.specs.Prelude.{◌≡◌, ℕ, ◌*◌, ◌<◌, length};
ghost use Rattle.marks.specs.Marks.{marked, Added};

#[tactic(auto, unfolding(crate::specs::Marks::marked))]
pub fn is_marked(words: &[u64], x: u64) -> bool
    requires { x < length words.now * 64 }
    ensures { marked words.now x ≡ result }
{
    let at = (x / 64) as usize;
    (words[at] >> (x % 64)) % 2 == 1
}

pub fn mark(words: &mut [u64], x: u64)
    requires { x < length words.old * 64 }
    ensures { Added words.old x words.new }
{
    let at = (x / 64) as usize;
    words[at] |= 1 << (x % 64);
}
