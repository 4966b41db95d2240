// The slots of a set, from the lowest on.
ghost use Rattle.std.specs.Prelude.{◌≡◌, MatchOption};
ghost use Rattle.std.specs.Iterator.{at_most};
ghost use Rattle.slots.specs.Sets.{tally};
ghost use Rattle.slots.specs.Meaning.{has};
ghost use Rattle.slots.specs.Rising.{left, GivesLowest};

use crate::SlotSet;

#[derive(Clone, Copy)]
pub struct Slots {
    rest: SlotSet,
}

impl SlotSet {
    pub fn iter(self) -> Slots
        ensures { left result ≡ has self }
    {
        Slots { rest: self }
    }
}

impl Iterator for Slots {
    type Item = u32;

    ghost next_gives = { GivesLowest };

    ghost remaining = { λ s. at_most (tally (left s)) };

    fn next(&mut self) -> Option<u32> {
        let slot = self.rest.lowest()?;
        self.rest.remove(slot);
        Some(slot)
    }
}
