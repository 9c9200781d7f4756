// A line obeyed: its call is made at the inner door, and its answer printed.
ghost use Rattle.std.specs.Prelude.{◌+◌, ◌*◌, ◌≤◌, ◌≡◌, length};
ghost use Rattle.rules.specs.Tables.{state_of};
ghost use Rattle.rules.specs.Drains.{key_width};
ghost use Rattle.rules.specs.Calls.{Ready};
ghost use Rattle.rules.specs.Script.{capacity, line_reply};
ghost use Rattle.words.specs.Lines.{reply_of};
ghost use Rattle.lines.specs.Obeys.{reply_most, Obeys, ObeysLine};

use rules::{Head, Refusal};
use told::{Obeyed, put_refusal, put_ring, put_text, tell};
use words::{Line, read_line};

// What is printed goes into `out` from `at` on; `keys` is lent to list a ring.
pub fn obey_line(
    head: Head,
    elems: &mut [u64],
    shared: &mut [u64],
    keys: &mut [u64],
    out: &mut [u8],
    at: usize,
    line: Option<Line>,
) -> Obeyed
    requires { Ready (state_of head elems.old shared.old) × (length keys.old ≡ capacity * key_width) × (at + reply_most ≤ length out.old) }
    ensures { Obeys (reply_of (state_of head elems.old shared.old) line) (state_of result.head elems.new shared.new) out.old at out.new result.next }
{
    let Some(line) = line else {
        let next = put_refusal(out, at, Refusal::Malformed);
        return Obeyed { head, next };
    };
    match line {
        Line::NewRun {
            payload,
            value,
            size,
        } => {
            let new_run = inserts::insert_surject(head, elems, shared, payload, value, size);
            tell(out, at, head, new_run)
        }
        Line::Insert {
            target,
            payload,
            size,
        } => {
            let inserted = inserts::insert(head, elems, shared, target, payload, size);
            tell(out, at, head, inserted)
        }
        Line::Union { first, second } => {
            let joined = unions::union(head, elems, shared, first, second);
            tell(out, at, head, joined)
        }
        Line::List(key) => {
            let size = rings::list(head, elems, shared, key, keys);
            let next = put_ring(out, at, size, keys);
            Obeyed { head, next }
        }
        Line::Remove(key) => {
            let removed = removes::remove_element(head, elems, shared, key);
            tell(out, at, head, removed)
        }
    }
}

// A line of bytes, without its newline: what Script prints of it, and a newline.
pub fn obey_bytes(
    head: Head,
    elems: &mut [u64],
    shared: &mut [u64],
    keys: &mut [u64],
    out: &mut [u8],
    at: usize,
    line: &[u8],
) -> Obeyed
    requires { Ready (state_of head elems.old shared.old) × (length keys.old ≡ capacity * key_width) × (at + reply_most ≤ length out.old) }
    ensures { ObeysLine (line_reply (state_of head elems.old shared.old) line.now) (state_of result.head elems.new shared.new) out.old at out.new result.next }
{
    let read = read_line(line);
    let obeyed = obey_line(head, elems, shared, keys, out, at, read);
    let head = obeyed.head;
    let next = put_text(out, obeyed.next, b"\n");
    Obeyed { head, next }
}
