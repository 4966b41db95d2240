// How a refusal is written: its three numbers, and its cause in words.
ghost use Rattle.std.specs.Prelude.{◌≡◌, Some};
ghost use Rattle.text.specs.Appending.{Appends};
ghost use Rattle.refusal.specs.Table.{line, words, fault_words};

use crate::{Fault, Refusal};
use std::alloc::AllocError;
use std::fmt;
use text::push_number;

impl fmt::Display for Refusal {
    ghost output = { λ r. Some (line r) };

    fn fmt<W: fmt::Write>(&self, f: &mut fmt::Formatter<W>) -> fmt::Result {
        let number = self.number();
        let layer = self.layer().number();
        let place = self.place();
        write!(f, "{number} {layer} {place}")
    }
}

impl std::error::Error for Refusal {}

impl Fault {
    pub fn meaning(self) -> &'static str
        ensures { result.now ≡ fault_words self }
    {
        match self {
            Fault::Check => "the check of a block differs",
            Fault::Head => "bytes 2 to 15 of a block are not as laid out",
            Fault::Record =>
                "a record or a row is no rule, or a byte is not zero where zero is laid out",
        }
    }
}

impl Refusal {
    // Writes the three numbers behind what was written before.
    pub fn push_text(self, out: &mut Vec<u8>) -> Result<(), AllocError>
        ensures { Appends out.old.items (line self) result out.new.items }
    {
        push_number(out, u64::from(self.number()))?;
        out.push(b' ')?;
        push_number(out, u64::from(self.layer().number()))?;
        out.push(b' ')?;
        push_number(out, u64::from(self.place()))
    }

    pub fn meaning(self) -> &'static str
        ensures { result.now ≡ words self }
    {
        match self {
            Refusal::WrongSize => "the count is not 1 to 64, or the memory is not of its size",
            Refusal::NoSuchSession { .. } => "there is no such session",
            Refusal::SlotOutsideStore { .. } => "the store has no such slot",
            Refusal::SlotOutsideBook { .. } => "the book has no such slot",
            Refusal::WrongPhase { .. } => "the session is not in a phase for this call",
            Refusal::AlreadyHeld { .. } => "the slot is held already",
            Refusal::NotHeld { .. } => "the slot is not held",
            Refusal::NotRead { .. } => "the change has not read the slot",
            Refusal::ReadByChange { .. } => "the open change has read the slot",
            Refusal::StampTooEarly => "the stamp is not after the threshold",
            Refusal::StampTaken { .. } => "the stamp is in the queue",
            Refusal::QueueFull => "the queue is full",
            Refusal::LaterConflict { .. } => "a change with a later stamp clashes",
            Refusal::PendingConflict { .. } =>
                "a pending change with an earlier stamp writes a slot read",
            Refusal::Stale { .. } => "a slot read was replaced since its copy was taken",
            Refusal::NumbersExhausted => "no notice number is left",
            Refusal::ReceiptTooHigh { .. } => "the receipt is above the last learnt number",
            Refusal::Damaged(damage) => damage.fault.meaning(),
            Refusal::NoRule { .. } => "the parts make no rule",
            Refusal::Unreadable { .. } => "a field is unreadable, missing or too many",
        }
    }
}
