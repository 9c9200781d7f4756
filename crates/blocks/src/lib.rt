// A block of the script program's input (Script): each whole line in it obeyed, the replies into a buffer that is written when full.
#![tactic(auto)]

ghost use Rattle.std.specs.Prelude.{◌≤◌, length};
ghost use Rattle.lines.specs.Obeys.{reply_most};
ghost use Rattle.blocks.specs.Progress.{Working, Room, Answered, Fed};

use rules::Head;
use stdio::Sent;

// The most bytes of a reply with its newline; in the rules of lines, reply_most.
const REPLY_MOST: usize = 21533;

// Between lines: the tables, what is lent to list a ring, the output and how much of it is held, the same of a line, and what went to the writer.
#[derive(Drop)]
pub struct Program<'a> {
    pub head: Head,
    pub elems: &'a mut [u64],
    pub shared: &'a mut [u64],
    pub keys: &'a mut [u64],
    pub out: &'a mut [u8],
    pub fill: usize,
    pub line: &'a mut [u8],
    pub held: usize,
    pub sent: Sent,
}

// The place of the next reply: where there is no room for it, what stands in `out` is written first.
fn make_room(out: &[u8], fill: usize, sent: &mut Sent) -> usize
    requires { (fill ≤ length out.now) × (reply_most ≤ length out.now) }
    ensures { Room out.now fill sent.old result sent.new }
{
    if out.len() - fill < REPLY_MOST {
        sent.send(&out[..fill]);
        return 0;
    }
    fill
}

impl<'a> Program<'a> {
    // The line that is held, obeyed.
    pub fn answer(&mut self)
        requires { Working self.old }
        ensures { Answered self.old self.new }
    {
        // Taken out and put back, since the check covers no loan of two slices behind `self` at once.
        let out = std::mem::take(&mut self.out);
        let at = make_room(out, self.fill, &mut self.sent);
        let held = self.held;
        let elems = std::mem::take(&mut self.elems);
        let shared = std::mem::take(&mut self.shared);
        let keys = std::mem::take(&mut self.keys);
        let line = std::mem::take(&mut self.line);
        let obeyed = lines::obey_bytes(self.head, elems, shared, keys, out, at, &line[..held]);
        self.head = obeyed.head;
        self.elems = elems;
        self.shared = shared;
        self.keys = keys;
        self.out = out;
        self.line = line;
        self.fill = obeyed.next;
        self.held = 0;
    }

    // A block of the input: each line that ends in it is obeyed, and the part of one that is left is held.
    pub fn feed(&mut self, block: &[u8])
        requires { Working self.old }
        ensures { Fed block.now self.old self.new }
    {
        let mut rest = block;
        // A while, since a for over the pieces would not say which is the last, the part that no newline ends.
        while let Some((part, after)) = lines::split_line(rest) {
            let held = self.held;
            self.held = lines::hold(self.line, held, part);
            self.answer();
            rest = after;
        }
        let held = self.held;
        self.held = lines::hold(self.line, held, rest);
    }
}
