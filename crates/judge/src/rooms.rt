// How many more values each slot takes.
ghost use Rattle.std.specs.Prelude.{◌≡◌, ◌<◌, slice_index};
ghost use Rattle.judge.specs.Rooms as rooms;

use std::marker::Model;

// The number of values that each slot still takes, at the place of the slot's number. Slot 0 is not counted, and its number
// stays 0. An array, since the core has no heap and the slots are known.
#[derive(Drop)]
pub(crate) struct Room {
    left: [u8; 10],
}

impl Model for Room {
    ghost use Rattle.std.specs.Prelude.{List, ℕ};

    ghost Value = { List ℕ };

    ghost view = { λ r. r.left };
}

impl Room {
    // Slots 1 to 5 hold three values, slots 6 to 9 hold one.
    pub(crate) fn new() -> Room
        ensures answer { result ≡ rooms.all_free }
    {
        Room {
            left: [0, 3, 3, 3, 3, 3, 1, 1, 1, 1],
        }
    }

    // Slot 0 is never full.
    pub(crate) fn is_full(&self, slot: u8) -> bool
        ensures answer { result ≡ rooms.full_by self.now slot }
    {
        slot != 0 && self.left_in(slot) == 0
    }

    // A slot takes a value, and has room for one less.
    pub(crate) fn take(&mut self, slot: u8)
        ensures state { self.new ≡ rooms.taken_from self.old slot }
    {
        let left = self.left_in(slot);
        if left > 0 {
            self.left[usize::from(slot)] = left - 1;
        }
    }

    fn left_in(&self, slot: u8) -> u8
        ensures answer { result ≡ slice_index self.now slot }
        ensures slot { 0 < result → slot < 10 }
    {
        self.left.get(usize::from(slot)).copied().unwrap_or(0)
    }
}
