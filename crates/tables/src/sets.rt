// What the calls ask of sets of slots; of two sets, or of one, only as far as they lie below a count.
ghost use Rattle.std.specs.Prelude.{◌≡◌, true, false};
ghost use Rattle.slots.specs.Meaning.{has};
ghost use Rattle.law.specs.Accounts.{changed};
ghost use Rattle.calls.specs.Sets.{lowest, any_below, meets};
ghost use Rattle.tables.specs.Meaning.{below, shared};

use slots::SlotSet;

pub fn no_slots() -> SlotSet
    ensures { has result ≡ (λ _. false) }
{
    SlotSet::new()
}

#[tactic(auto, using(crate::proofs::Counts::inserted_is))]
pub fn with_slot(set: SlotSet, slot: u32) -> SlotSet
    ensures { has result ≡ below 64 slot (changed slot (λ _. true)) (has set) }
{
    let mut more = set;
    more.insert(slot);
    more
}

// The slots that are in both sets.
pub fn common(one: SlotSet, other: SlotSet) -> SlotSet
    ensures { has result ≡ shared (has one) (has other) }
{
    one.intersection(other)
}

// The lowest slot of a set, if it is below the count.
#[tactic(auto, using(crate::proofs::Counts::lowest_inside, crate::proofs::Counts::lowest_outside, crate::proofs::Counts::lowest_empty))]
pub fn lowest_below(count: u32, set: SlotSet) -> Option<u32>
    ensures { result ≡ lowest count (has set) }
{
    set.lowest().filter(|slot| *slot < count)
}

// Whether a slot below the count is in the set.
pub fn any_below(count: u32, set: SlotSet) -> bool
    ensures { result ≡ any_below count (has set) }
{
    lowest_below(count, set).is_some()
}

// Whether a slot below the count is in both sets.
pub fn meets_below(count: u32, one: SlotSet, other: SlotSet) -> bool
    ensures { result ≡ meets count (has one) (has other) }
{
    any_below(count, common(one, other))
}
