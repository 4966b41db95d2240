// Tables over slots: a value for each slot of a set.
//
// A table means a function that gives of every number the value for it, if there is one, and every call is said in terms of that function.
// A number of 64 or more is no slot: it has no value, and is neither put nor removed.
// Beside it, what is asked of sets of slots below a count.
#![tactic(auto)]

mod sets;

ghost use Rattle.std.specs.Prelude.{◌≡◌, ℕ, true, length, is_some, Some, None, IfSome, ⊤};
ghost use Rattle.std.proofs.Props.{props};
ghost use Rattle.slots.specs.Meaning.{has};
ghost use Rattle.law.specs.Accounts.{changed};
ghost use Rattle.calls.specs.Effects.{up_to_gone};

pub use sets::{any_below, common, lowest_below, meets_below, no_slots, with_slot};
use slots::{SLOTS, SlotSet};
use std::alloc::AllocError;

// No `impl Model`: a table means a function of the slot, and the value of a model has to be data.
pub struct SlotMap<T> {
    // the slots that have a value
    slots: SlotSet,
    // made when the first value is put; what stands where no slot has a value is never given out
    values: Option<[T; 64]>,
    ghost made: { (x : ℕ) → has slots x ≡ true → is_some values ≡ true },
    ghost full: { IfSome values (λ vs. length vs ≡ 64) } by { Prim.hlevel props },
}

// By hand, since `Clone` cannot be derived beside a ghost field.
impl<T: Copy> Clone for SlotMap<T> {
    ghost is_clone = { λ x y. y ≡ x };

    ghost is_infallible = { λ _. ⊤ };

    fn clone(&self) -> Result<SlotMap<T>, AllocError> {
        Ok(*self)
    }
}

impl<T: Copy> Copy for SlotMap<T> {}

impl<T: Copy> SlotMap<T> {
    ghost use Rattle.tables.specs.Meaning.{at, below, filled, marked, cleared, overlaid};

    // No slot has a value.
    pub fn new() -> SlotMap<T>
        ensures { at result ≡ (λ _. None) }
    {
        SlotMap {
            slots: SlotSet::new(),
            values: None,
        }
    }

    // The slots that have a value.
    pub fn slots(&self) -> SlotSet
        ensures { has result ≡ filled (at self.now) }
    {
        let filled = self.slots;
        filled
    }

    pub fn get(&self, slot: u32) -> Option<T>
        ensures { result ≡ at self.now slot }
    {
        if slot >= SLOTS {
            return None;
        }
        if !self.slots.contains(slot) {
            return None;
        }
        match &self.values {
            Some(values) => Some(values[slot as usize]),
            None => None,
        }
    }

    pub fn put(&mut self, slot: u32, value: T)
        ensures { at self.new ≡ below 64 slot (changed slot (λ _. Some value)) (at self.old) }
    {
        if slot < SLOTS {
            match &mut self.values {
                Some(values) => values[slot as usize] = value,
                None => self.values = Some([value; 64]),
            }
            self.slots.insert(slot);
        }
    }

    pub fn remove(&mut self, slot: u32)
        ensures { at self.new ≡ below 64 slot (changed slot (λ _. None)) (at self.old) }
    {
        self.slots.remove(slot);
    }

    pub fn clear(&mut self)
        ensures { at self.new ≡ (λ _. None) }
    {
        self.slots = SlotSet::new();
    }

    // The slots of a set lose their values.
    pub fn clear_all(&mut self, set: SlotSet)
        ensures { at self.new ≡ cleared (has set) (at self.old) }
    {
        self.slots = self.slots.difference(set);
    }

    // The slots of a set get this value.
    pub fn mark(&mut self, set: SlotSet, value: T)
        ensures { at self.new ≡ marked (has set) value (at self.old) }
    {
        for slot in set.iter() {
            self.put(slot, value);
        }
    }

    // The values of another table come over those of this one.
    pub fn overlay(&mut self, over: &SlotMap<T>)
        ensures { at self.new ≡ overlaid (at over.now) (at self.old) }
    {
        for slot in over.slots.iter() {
            if let Some(value) = over.get(slot) {
                self.put(slot, value);
            }
        }
    }
}

impl SlotMap<u32> {
    ghost use Rattle.tables.specs.Meaning.{at};

    // The slots with a number up to this one lose it.
    pub fn forget(&mut self, number: u32)
        ensures { at self.new ≡ (λ x. up_to_gone number (at self.old x)) }
    {
        for slot in self.slots.iter() {
            if let Some(k) = self.get(slot) {
                if k <= number {
                    self.remove(slot);
                }
            }
        }
    }
}
