// The map from the sample's frames to keys, kept as keys are given. Frame 255 was never given one.
#![tactic(auto)]

ghost use Rattle.std.specs.Prelude.{◌≡◌, ◌<◌, replicate, slice_set};
ghost use Rattle.sample.specs.Sample.{key_of};

use rules::Key;

// The tables of the sample have so many slots, each of six numbers, its generation and its payload first.
const SLOTS: usize = 16;

const WIDTH: usize = 6;

// The key of each frame that was given one.
#[derive(Clone, Copy)]
pub struct Given {
    pub keys: [Option<Key>; 256],
}

impl Given {
    // No frame was given a key.
    pub fn new() -> Self
        ensures { result.keys ≡ replicate 256 None }
    {
        Given { keys: [None; 256] }
    }

    // The key that a frame was given.
    pub fn key(&self, frame: u8) -> Option<Key>
        ensures { result ≡ key_of self.now.keys frame }
    {
        self.keys[usize::from(frame)]
    }

    pub fn learn(&mut self, frame: u8, key: Key)
        ensures { self.new.keys ≡ slice_set self.old.keys frame (Some key) }
    {
        self.keys[usize::from(frame)] = Some(key);
    }

    // After compression every frame has a new key.
    pub fn relearn(&mut self, elems: &[u64; 96]) {
        *self = Given::new();
        for slot in (0..SLOTS).rev() {
            self.relearn_slot(slot, elems);
        }
    }

    // The frame in a slot is known by its payload, which is its name in the sample.
    fn relearn_slot(&mut self, slot: usize, elems: &[u64; 96])
        requires { slot < 16 }
    {
        let generation = elems[slot * WIDTH];
        let Ok(frame) = u8::try_from(elems[slot * WIDTH + 1]) else {
            return;
        };
        if generation != 0 && frame != u8::MAX {
            let slot = slot as u64 + 1;
            self.learn(frame, Key { slot, generation });
        }
    }
}
