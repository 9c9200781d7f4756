// The types of document 01: head, key, refusals and answers. The rules are in specs/.
#![tactic(auto)]

ghost use Rattle.std.specs.Prelude.{◌≡◌, ◌+◌, ◌≤◌, ◌==◌, false};
ghost use Rattle.rules.specs.Tables.{most_slots, last_generation, with_pools, with_generation, blank, remembering};
ghost use Rattle.rules.specs.Slots.{empty_pool, slot_of, is_full, freed, raised};
ghost use Rattle.rules.specs.Compress.{packed_in};

// Numbers to an element slot and to a shared slot (docs/LAYOUT.md); in the rules, frame_width and header_width.
pub const FRAME: u64 = 6;

pub const HEADER: u64 = 5;

// Tables 1: the fields of an element slot; in the rules, frame_at.
pub const GENERATION: u64 = 0;

pub const PAYLOAD: u64 = 1;

pub const CLASS: u64 = 2;

pub const PREVIOUS: u64 = 3;

pub const NEXT: u64 = 4;

pub const SIZE: u64 = 5;

// Tables 2: the fields of a shared slot; in the rules, header_at.
pub const COUNT: u64 = 0;

pub const VALUE: u64 = 1;

pub const NEXT_FREE: u64 = 2;

pub const MARK: u64 = 3;

pub const TOTAL: u64 = 4;

// Ticket 6: in the rules, most_bytes.
pub const MOST_BYTES: u64 = 4294967295;

// Tables: the highest capacity; in the rules, most_slots.
pub const MOST_SLOTS: u64 = 65536;

// Tables 3: in the rules, last_generation.
pub const LAST_GENERATION: u64 = 4294967295;

// Tables and head: what the head holds of one table.
#[repr(C)]
#[derive(Clone, Copy)]
pub struct Pool {
    pub capacity: u64,
    pub extent: u64,
    pub root: u64,
    pub live: u64,
}

impl Pool {
    // Rules 2 and 12: no slot has been taken.
    pub fn empty(capacity: u64) -> Self
        ensures { result ≡ empty_pool capacity }
    {
        Pool {
            capacity,
            extent: 0,
            root: 0,
            live: 0,
        }
    }

    // Rules 14, Tickets 11 and 12: the first slots are live, and no other.
    pub fn packed(capacity: u64, live: u64) -> Self
        ensures { result ≡ packed_in capacity live }
    {
        Pool {
            capacity,
            extent: live,
            root: 0,
            live,
        }
    }

    // Refusals 5 and 6: no slot can be taken.
    #[tactic(auto, unfolding(crate::specs::Slots::is_full))]
    pub fn is_full(self) -> bool
        ensures { is_full self ≡ result }
    {
        self.root == 0 && self.extent == self.capacity
    }

    // Rules 3: the slot that is taken next.
    #[tactic(auto, unfolding(crate::specs::Slots::slot_of))]
    pub fn slot(self) -> u64
        requires { self.extent ≤ most_slots }
        ensures { result ≡ slot_of self }
    {
        if self.root == 0 {
            self.extent + 1
        } else {
            self.root
        }
    }

    // Rules 3: the free root is taken, and `next` becomes the root.
    pub fn pop(mut self, next: u64) -> Self
        requires { self.live ≤ most_slots }
        ensures { result ≡ record { capacity = self.capacity; extent = self.extent; root = next; live = self.live + 1 } }
    {
        self.root = next;
        self.live += 1;
        self
    }

    // Rules 3: the slot past the extent is taken.
    pub fn grow(mut self) -> Self
        requires { (self.extent ≤ most_slots) × (self.live ≤ most_slots) }
        ensures { result ≡ record { capacity = self.capacity; extent = self.extent + 1; root = self.root; live = self.live + 1 } }
    {
        self.extent += 1;
        self.live += 1;
        self
    }

    // Rules 3: a slot is freed.
    #[tactic(auto, unfolding(crate::specs::Slots::freed))]
    pub fn push(mut self, slot: u64) -> Self
        requires { 1 ≤ self.live }
        ensures { result ≡ freed self slot }
    {
        self.root = slot;
        self.live -= 1;
        self
    }
}

// Ticket 7: what the head keeps of the last union, zeros when there is nothing: the slots of the keys whose class was kept and went,
// the class entries rewritten, and the value of the header that went.
#[repr(C)]
#[derive(Clone, Copy)]
pub struct Memory {
    pub kept: u64,
    pub gone: u64,
    pub moved: u64,
    pub value: u64,
}

// Nothing to undo; in the rules, blank.
pub const BLANK: Memory = Memory {
    kept: 0,
    gone: 0,
    moved: 0,
    value: 0,
};

// Tables and head: the head of both tables.
#[repr(C)]
#[derive(Clone, Copy)]
pub struct Head {
    pub elems: Pool,
    pub shared: Pool,
    pub generation: u64,
    pub undo: Memory,
}

impl Head {
    // Ticket 7: nothing is left to undo.
    pub fn forget(mut self) -> Self
        ensures { result ≡ remembering self blank }
    {
        self.undo = BLANK;
        self
    }

    // Rules 3, of an element slot: the free root is taken, and `next` becomes the root.
    pub fn pop_element(mut self, next: u64) -> Self
        requires { self.elems.live ≤ most_slots }
        ensures { result ≡ with_pools self (record { capacity = self.elems.capacity; extent = self.elems.extent; root = next; live = self.elems.live + 1 }) self.shared }
    {
        self.elems = self.elems.pop(next);
        self.undo = BLANK;
        self
    }

    // Rules 3: the slot past the extent is taken.
    pub fn grow_element(mut self) -> Self
        requires { (self.elems.extent ≤ most_slots) × (self.elems.live ≤ most_slots) }
        ensures { result ≡ with_pools self (record { capacity = self.elems.capacity; extent = self.elems.extent + 1; root = self.elems.root; live = self.elems.live + 1 }) self.shared }
    {
        self.elems = self.elems.grow();
        self.undo = BLANK;
        self
    }

    // Rules 3: an element slot is freed.
    pub fn push_element(mut self, slot: u64) -> Self
        requires { 1 ≤ self.elems.live }
        ensures { result ≡ with_pools self (freed self.elems slot) self.shared }
    {
        self.elems = self.elems.push(slot);
        self.undo = BLANK;
        self
    }

    // The same of a shared slot.
    pub fn pop_shared(mut self, next: u64) -> Self
        requires { self.shared.live ≤ most_slots }
        ensures { result ≡ with_pools self self.elems (record { capacity = self.shared.capacity; extent = self.shared.extent; root = next; live = self.shared.live + 1 }) }
    {
        self.shared = self.shared.pop(next);
        self.undo = BLANK;
        self
    }

    // The same of a shared slot.
    pub fn grow_shared(mut self) -> Self
        requires { (self.shared.extent ≤ most_slots) × (self.shared.live ≤ most_slots) }
        ensures { result ≡ with_pools self self.elems (record { capacity = self.shared.capacity; extent = self.shared.extent + 1; root = self.shared.root; live = self.shared.live + 1 }) }
    {
        self.shared = self.shared.grow();
        self.undo = BLANK;
        self
    }

    // The same of a shared slot.
    pub fn push_shared(mut self, slot: u64) -> Self
        requires { 1 ≤ self.shared.live }
        ensures { result ≡ with_pools self self.elems (freed self.shared slot) }
    {
        self.shared = self.shared.push(slot);
        self.undo = BLANK;
        self
    }

    // Rules, below the list: after the last generation comes 1.
    #[tactic(auto, unfolding(crate::specs::Slots::raised))]
    pub fn raise(mut self) -> Step<()>
        requires { self.generation ≤ last_generation }
        ensures { result ≡ record { head = with_generation self (raised self.generation); answer = tt; over = self.generation == last_generation } }
    {
        let over = self.generation == LAST_GENERATION;
        self.undo = BLANK;
        self.generation = if over { 1 } else { self.generation + 1 };
        Step {
            head: self,
            answer: (),
            over,
        }
    }
}

// Tables and head: a key.
#[derive(Clone, Copy, PartialEq, Eq, Debug)]
pub struct Key {
    pub slot: u64,
    pub generation: u64,
}

// Ticket 5: why a key is dead, 1 to 3 in this order.
#[derive(Clone, Copy, PartialEq, Eq, Debug)]
pub enum Cause {
    NoSlot,
    FreeSlot,
    OtherGeneration,
}

// Numbers given on refusal, 1 to 13 in this order; 3 carries its cause.
#[derive(Clone, Copy, PartialEq, Eq, Debug)]
pub enum Refusal {
    Shape,
    Unsound,
    Dead(Cause),
    SameClass,
    NoElement,
    NoShared,
    Short,
    Malformed,
    NoFile,
    Nothing,
    Version,
    Sealed,
    OutOfRange,
}

// A dead key refuses the call, by its cause.
impl From<Cause> for Refusal {
    ghost use Rattle.rules.specs.declared.Refusal.TheVariants.{Dead};

    ghost from_gives = { λ cause refusal. refusal ≡ Dead cause };

    fn from(cause: Cause) -> Refusal {
        Refusal::Dead(cause)
    }
}

// The answer of union: the removed shared value, the kept class's key, the class entries rewritten.
#[derive(Clone, Copy)]
pub struct Joined {
    pub was: u64,
    pub kept: Key,
    pub moved: u64,
}

// The answer of seal: the header's value and count.
#[derive(Clone, Copy)]
pub struct Seal {
    pub value: u64,
    pub count: u64,
}

// What removal says of the run: it goes on, or that was its last frame, with the shared value. No Option: document 01, Forms 1, names it.
#[derive(Clone, Copy)]
pub enum Rest {
    GoesOn,
    Last(u64),
}

// The answer of removal.
#[derive(Clone, Copy)]
pub struct Removed {
    pub payload: u64,
    pub rest: Rest,
}

// What an accepted call that changes the head hands back: the next head, the answer, and whether it says overflow.
#[derive(Clone, Copy)]
pub struct Step<T> {
    pub head: Head,
    pub answer: T,
    pub over: bool,
}

impl<T> Step<T> {
    // The answer of a call that cannot say overflow.
    pub fn plain(head: Head, answer: T) -> Self
        ensures { result ≡ record { head = head; answer = answer; over = false } }
    {
        Step {
            head,
            answer,
            over: false,
        }
    }
}

// Ticket 12: what the move hands back, the next head of both.
#[derive(Clone, Copy)]
pub struct Moved {
    pub head: Head,
    pub source: Head,
    pub over: bool,
}
