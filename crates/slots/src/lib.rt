// Sets of slots: which of the slots below 64 a change has read, written or holds.
//
// A set means a function that tells of every number whether it is in the set, and every call is said in terms of that function.
// No call is refused: a number of 64 or more is no slot, is in no set, and is neither inserted nor removed.
#![tactic(auto)]

ghost use Rattle.std.specs.Prelude.{◌≡◌, ◌+◌, ◌≤◌, false, not, if◌then◌else◌, Decides, MatchOption, nat_eq};
ghost use Rattle.std.specs.Ordering.{on};
ghost use Rattle.slots.specs.declared.SlotSet.{SlotSet};
ghost use Rattle.slots.specs.Meaning.{has};
ghost use Rattle.slots.specs.Sets.{none, alone, either, both, without, inserted, removed, any, tally, least, meet, Lowest, Meeting};
ghost use Rattle.std.specs.Cmp.Rules.{comparing};
ghost use Rattle.std.proofs.Common.{rules};
ghost use Rattle.std.specs.Cmp as Keys;

mod iter;

pub use iter::Slots;

// The numbers below this are the slots.
pub const SLOTS: u32 = 64;

// No `impl Model`: a set means a function of the slot, and the value of a model has to be data.
#[derive(Clone, Copy)]
pub struct SlotSet {
    // bit x stands for slot x
    bits: u64,
}

impl SlotSet {
    // No slot.
    #[tactic(auto, using(crate::proofs::WordSets::has_none))]
    pub fn new() -> SlotSet
        ensures { has result ≡ none }
    {
        SlotSet { bits: 0 }
    }

    pub fn contains(self, slot: u32) -> bool
        ensures value { result ≡ has self slot }
        ensures outside { 64 ≤ slot → result ≡ false }
    {
        self.meets(SlotSet::only(slot))
    }

    pub fn insert(&mut self, slot: u32)
        ensures { has self.new ≡ inserted (has self.old) slot }
    {
        *self = self.union(SlotSet::only(slot));
    }

    pub fn remove(&mut self, slot: u32)
        ensures value { has self.new ≡ removed (has self.old) slot }
        ensures fewer { tally (has self.new) + (if has self.old slot then 1 else 0) ≡ tally (has self.old) }
    {
        *self = self.difference(SlotSet::only(slot));
    }

    // Whether some slot is in both.
    #[tactic(auto, using(crate::proofs::Sets::meet_decides))]
    pub fn meets(self, other: SlotSet) -> bool
        ensures value { result ≡ meet (has self) (has other) }
        ensures cases { Decides result (Meeting (has self) (has other)) }
    {
        !self.intersection(other).is_empty()
    }

    #[tactic(auto, using(crate::proofs::Sets::least_none, crate::proofs::WordSets::lowest_some, crate::proofs::WordSets::lowest_some_is, crate::proofs::WordSets::lowest_none))]
    pub fn lowest(self) -> Option<u32>
        ensures value { result ≡ least (has self) }
        ensures cases { MatchOption result (has self ≡ none) (λ x. Lowest (has self) x) }
    {
        let slot = self.bits.trailing_zeros();
        (slot < SLOTS).then_some(slot)
    }

    // How many slots are in the set.
    #[tactic(auto, using(crate::proofs::WordSets::tally_word))]
    pub fn len(self) -> u32
        ensures value { result ≡ tally (has self) }
        ensures bound { result ≤ 64 }
    {
        self.bits.count_ones()
    }

    #[tactic(auto, using(crate::proofs::WordSets::empty_is, crate::proofs::WordSets::empty_decides))]
    pub fn is_empty(self) -> bool
        ensures value { result ≡ not (any (has self)) }
        ensures cases { Decides result (has self ≡ none) }
    {
        self.bits == 0
    }

    #[tactic(auto, using(crate::proofs::WordSets::has_either))]
    pub fn union(self, other: SlotSet) -> SlotSet
        ensures { has result ≡ either (has self) (has other) }
    {
        SlotSet {
            bits: self.bits | other.bits,
        }
    }

    #[tactic(auto, using(crate::proofs::WordSets::has_both))]
    pub fn intersection(self, other: SlotSet) -> SlotSet
        ensures { has result ≡ both (has self) (has other) }
    {
        SlotSet {
            bits: self.bits & other.bits,
        }
    }

    // The slots that are in this set and not in the other.
    #[tactic(auto, using(crate::proofs::WordSets::has_without))]
    pub fn difference(self, other: SlotSet) -> SlotSet
        ensures { has result ≡ without (has self) (has other) }
    {
        SlotSet {
            bits: self.bits & !other.bits,
        }
    }

    // The slot alone. A set meets it where it has the slot, and is one smaller without it; what is no slot is in no set.
    #[tactic(auto, using(crate::proofs::Sets::alone_outside, crate::proofs::Members::has_outside, crate::proofs::WordSets::has_alone, crate::proofs::WordSets::meet_only, crate::proofs::WordSets::fewer_only))]
    fn only(slot: u32) -> SlotSet
        ensures value { has result ≡ alone slot }
        ensures meets { (s : SlotSet) → meet (has s) (has result) ≡ has s slot }
        ensures fewer { (s : SlotSet) → tally (without (has s) (has result)) + (if has s slot then 1 else 0) ≡ tally (has s) }
        ensures outside { 64 ≤ slot → (s : SlotSet) → has s slot ≡ false }
    {
        if slot >= SLOTS {
            return SlotSet::new();
        }
        SlotSet { bits: 1 << slot }
    }
}

// By hand, since a derived `==` would not say that it decides whether two sets mean the same.
impl PartialEq for SlotSet {
    ghost eq = { on (λ v. v.bits) nat_eq };

    ghost laws = { Keys.partial_equiv_from_equiv (Prim.search (comparing, rules)) };

    #[tactic(auto, using(crate::proofs::WordSets::equal_decides))]
    fn eq(&self, other: &SlotSet) -> bool
        ensures words { result ≡ nat_eq self.now.bits other.now.bits }
        ensures sets { Decides result (has self.now ≡ has other.now) }
    {
        self.bits == other.bits
    }
}

impl Eq for SlotSet {
    ghost laws = { Prim.search (comparing, rules) };
}

#[cfg(test)]
mod tests {
    use super::*;

    #[test]
    fn keeps_slots_only(rt: HostRuntime) {
        let mut set = SlotSet::new();
        set.insert(63);
        set.insert(3);
        set.insert(64);
        assert_eq!(rt; set.len(), 2);
        set.remove(3);
        assert_eq!(rt; set.lowest(), Some(63));
    }
}
