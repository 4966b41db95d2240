// Why a call is turned away: one enum of causes, each with what it carries.
//
// The number, layer and place of every cause are those of the one table in `specs/Table.antt`.
// A refusal is written as these three numbers, and `meaning` tells its cause in words.
#![tactic(auto)]

mod texts;

ghost use Rattle.std.specs.Prelude.{◌≡◌};
ghost use Rattle.refusal.specs.Table.{fault_number, layer_number, told};

// The part of the product that turns a call away, lowest first.
#[derive(Clone, Copy, Debug, PartialEq, Eq)]
pub enum Layer {
    Block = 1,
    Store,
    Book,
    Line,
}

impl Layer {
    pub fn number(self) -> u8
        ensures { result ≡ layer_number self }
    {
        self as u8
    }
}

// What is wrong with the memory in which a slot lies.
#[derive(Clone, Copy, Debug, PartialEq, Eq)]
pub enum Fault {
    // the check that a block carries is not the check of its other bytes
    Check = 17,
    // the head of a block is not as laid out
    Head,
    // a record or a table row is no rule, or a byte behind the head is not zero where zero is laid out
    Record,
}

impl Fault {
    pub fn number(self) -> u8
        ensures { result ≡ fault_number self }
    {
        self as u8
    }
}

// A fault with the number of its block; the rows of a table count as block 0.
#[derive(Clone, Copy, Debug, PartialEq, Eq)]
pub struct Damage {
    pub fault: Fault,
    pub block: u32,
}

// The causes, in the order of their numbers.
#[derive(Clone, Copy, Debug, PartialEq, Eq)]
pub enum Refusal {
    WrongSize,
    NoSuchSession { session: u32 },
    SlotOutsideStore { slot: u32 },
    SlotOutsideBook { slot: u32 },
    WrongPhase { session: u32 },
    AlreadyHeld { slot: u32 },
    NotHeld { slot: u32 },
    NotRead { slot: u32 },
    ReadByChange { slot: u32 },
    StampTooEarly,
    StampTaken { entry: u32 },
    QueueFull,
    LaterConflict { entry: u32 },
    PendingConflict { entry: u32 },
    Stale { slot: u32 },
    NumbersExhausted,
    ReceiptTooHigh { session: u32 },
    Damaged(Damage),
    NoRule { at: u32 },
    Unreadable { at: u32 },
}

impl Refusal {
    // By a method and not by `From`, as with a layer and a fault: a refusal is told by three numbers, and none of them is the refusal.
    pub fn number(self) -> u8
        ensures { result ≡ (told self).number }
    {
        match self {
            Refusal::WrongSize => 1,
            Refusal::NoSuchSession { .. } => 2,
            Refusal::SlotOutsideStore { .. } | Refusal::SlotOutsideBook { .. } => 3,
            Refusal::WrongPhase { .. } => 4,
            Refusal::AlreadyHeld { .. } => 5,
            Refusal::NotHeld { .. } => 6,
            Refusal::NotRead { .. } => 7,
            Refusal::ReadByChange { .. } => 8,
            Refusal::StampTooEarly => 9,
            Refusal::StampTaken { .. } => 10,
            Refusal::QueueFull => 11,
            Refusal::LaterConflict { .. } => 12,
            Refusal::PendingConflict { .. } => 13,
            Refusal::Stale { .. } => 14,
            Refusal::NumbersExhausted => 15,
            Refusal::ReceiptTooHigh { .. } => 16,
            Refusal::Damaged(damage) => damage.fault.number(),
            Refusal::NoRule { .. } => 20,
            Refusal::Unreadable { .. } => 21,
        }
    }

    pub fn layer(self) -> Layer
        ensures { result ≡ (told self).layer }
    {
        match self {
            Refusal::Damaged(_) => Layer::Block,
            Refusal::WrongSize | Refusal::SlotOutsideStore { .. } => Layer::Store,
            Refusal::NoRule { .. } | Refusal::Unreadable { .. } => Layer::Line,
            _ => Layer::Book,
        }
    }

    pub fn place(self) -> u32
        ensures { result ≡ (told self).place }
    {
        match self {
            Refusal::WrongSize | Refusal::StampTooEarly | Refusal::NumbersExhausted => 0,
            Refusal::NoSuchSession { session }
            | Refusal::WrongPhase { session }
            | Refusal::ReceiptTooHigh { session } => session,
            Refusal::SlotOutsideStore { slot }
            | Refusal::SlotOutsideBook { slot }
            | Refusal::AlreadyHeld { slot }
            | Refusal::NotHeld { slot }
            | Refusal::NotRead { slot }
            | Refusal::ReadByChange { slot }
            | Refusal::Stale { slot } => slot,
            Refusal::StampTaken { entry }
            | Refusal::LaterConflict { entry }
            | Refusal::PendingConflict { entry } => entry,
            Refusal::QueueFull => 32,
            Refusal::Damaged(damage) => damage.block,
            Refusal::NoRule { at } | Refusal::Unreadable { at } => at,
        }
    }
}
