// A line of bytes, without its newline, read as one of the script's lines.
ghost use Rattle.std.specs.Prelude.{ℕ, ◌≡◌, List, [], ◌∷◌};
ghost use Rattle.rules.specs.Tables.{State};
ghost use Rattle.rules.specs.Script.{line_reply};
ghost use Rattle.words.specs.Words.{left};
ghost use Rattle.words.specs.Lines.{reply_of, Means};

use crate::words::{U32, U64, Words};
use rules::Key;

// Script: the most bytes of a line.
const LINE_MOST: usize = 127;

// What a line asks for.
#[derive(Clone, Copy)]
pub enum Line {
    NewRun {
        payload: u64,
        value: u64,
        size: u32,
    },
    Insert {
        target: Key,
        payload: u64,
        size: u32,
    },
    Union {
        first: Key,
        second: Key,
    },
    List(Key),
    Remove(Key),
}

fn read_new_run(words: &mut Words) -> Option<Line>
    ensures { Means 0 (left words.old) result }
{
    let payload = words.number(U64)?;
    let value = words.number(U64)?;
    let size = words.number(U32)? as u32;
    words.end()?;
    Some(Line::NewRun {
        payload,
        value,
        size,
    })
}

fn read_insert(words: &mut Words) -> Option<Line>
    ensures { Means 1 (left words.old) result }
{
    let target = words.key()?;
    let payload = words.number(U64)?;
    let size = words.number(U32)? as u32;
    words.end()?;
    Some(Line::Insert {
        target,
        payload,
        size,
    })
}

fn read_union(words: &mut Words) -> Option<Line>
    ensures { Means 2 (left words.old) result }
{
    let first = words.key()?;
    let second = words.key()?;
    words.end()?;
    Some(Line::Union { first, second })
}

fn read_list(words: &mut Words) -> Option<Line>
    ensures { Means 3 (left words.old) result }
{
    let key = words.key()?;
    words.end()?;
    Some(Line::List(key))
}

fn read_remove(words: &mut Words) -> Option<Line>
    ensures { Means 4 (left words.old) result }
{
    let key = words.key()?;
    words.end()?;
    Some(Line::Remove(key))
}

// Script: what a line asks for, without its newline; none where it is malformed.
pub fn read_line(line: &[u8]) -> Option<Line>
    ensures { (st : State) → line_reply st line.now ≡ reply_of st result }
{
    if LINE_MOST < line.len() {
        return None;
    }
    let mut words = Words::new(line);
    let &[letter] = words.next()? else {
        return None;
    };
    match letter {
        b'n' => read_new_run(&mut words),
        b'a' => read_insert(&mut words),
        b'u' => read_union(&mut words),
        b'l' => read_list(&mut words),
        b'r' => read_remove(&mut words),
        _ => None,
    }
}
