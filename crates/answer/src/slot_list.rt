// How a set of slots is written: rising, with commas, or a hyphen where there is none.
ghost use Rattle.std.specs.Prelude.{Some};
ghost use Rattle.text.specs.Appending.{Appends};
ghost use Rattle.slots.specs.Meaning.{has};
ghost use Rattle.answer.specs.Slots.{slots_text, entry_text};

use slots::SlotSet;
use std::alloc::AllocError;
use std::fmt;
use text::push_number;

// A slot, with the comma that stands before all but the first.
fn push_entry(out: &mut Vec<u8>, slot: u32, more: bool) -> Result<(), AllocError>
    ensures { Appends out.old.items (entry_text more slot) result out.new.items }
{
    if more {
        out.push(b',')?;
    }
    push_number(out, u64::from(slot))
}

pub(crate) fn push_slots(out: &mut Vec<u8>, slots: SlotSet) -> Result<(), AllocError>
    ensures { Appends out.old.items (slots_text (has slots)) result out.new.items }
{
    let mut rest = slots.iter();
    let Some(first) = rest.next() else {
        return out.extend_from_slice(b"-");
    };
    push_entry(out, first, false)?;
    for slot in rest {
        push_entry(out, slot, true)?;
    }
    Ok(())
}

#[derive(Clone, Copy)]
pub struct SlotList {
    pub slots: SlotSet,
}

impl fmt::Display for SlotList {
    ghost output = { λ l. Some (slots_text (has l.slots)) };

    fn fmt<W: fmt::Write>(&self, f: &mut fmt::Formatter<W>) -> fmt::Result {
        let mut rest = self.slots.iter();
        let Some(first) = rest.next() else {
            return write!(f, "-");
        };
        write!(f, "{first}")?;
        for slot in rest {
            write!(f, ",{slot}")?;
        }
        Ok(())
    }
}
