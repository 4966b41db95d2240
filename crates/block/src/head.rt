// What ought to stand in the head of a block.
ghost use Rattle.std.specs.Prelude.{◌≡◌, ◌*◌, ◌<◌, ◌≤◌, true};
ghost use Rattle.block.specs.Memory.{counts, slots_in};

use crate::SLOTS;

// The number of a block, and how many slots it has.
#[derive(Clone, Copy)]
pub(crate) struct Head {
    pub(crate) number: u8,
    pub(crate) slots: u8,
    ghost few: { slots ≤ 32 },
}

impl Head {
    // The head of block `number` in a memory of `count` slots.
    pub(crate) fn of(count: u32, number: u32) -> Head
        requires { (counts count ≡ true) × (32 * number < count) }
        ensures number { result.number ≡ number }
        ensures slots { result.slots ≡ slots_in count number }
    {
        Head {
            number: number as u8,
            slots: SLOTS.min(count - SLOTS * number) as u8,
        }
    }
}
