// Stores of rules: what every store means, and the store over a table of plain rows.
//
// A store means a list of at most 64 entries, each a rule or a damage. One contract for `count`, `get` and `put`
// holds of every store, for every slot and every rule, whether the slot is in the list or not.
#![tactic(auto)]

pub mod table;

ghost use Rattle.std.specs.Prelude.{◌≡◌, ◌≤◌, List, length};
ghost use Rattle.store.specs.declared.Entry.{Entry};
ghost use Rattle.store.specs.Entries.{answer, got, done, put_into};

use refusal::{Damage, Refusal};
use rule::Rule;

// What a slot holds. Not a `Result`: a damage is no failure here, but what lies in the slot, and the definitions name both cases by these words.
#[derive(Clone, Copy, Debug, PartialEq, Eq)]
pub enum Entry {
    Intact(Rule),
    Broken(Damage),
}

impl Entry {
    // The rule of an entry, or the refusal that it asks for.
    pub fn rule(self) -> Result<Rule, Refusal>
        ensures { result ≡ answer self }
    {
        match self {
            Entry::Intact(rule) => Ok(rule),
            Entry::Broken(damage) => Err(Refusal::Damaged(damage)),
        }
    }
}

// A store that can be read. `get` may change what else the store keeps, but no entry.
pub trait Reading {
    // the list that the store means
    ghost entries: { Self → List Entry };

    // what a store that keeps more than its entries has to keep true of that; every making gives it, every call keeps it
    ghost sound: { Self → Type 0 };

    fn count(&self) -> u32
        ensures { result ≡ length (entries self.now) };

    fn get(&mut self, slot: u32) -> Result<Rule, Refusal>
        ensures same { entries self.new ≡ entries self.old }
        ensures stays_sound { sound self.old → sound self.new }
        ensures value { sound self.old → result ≡ got (entries self.old) slot };

    ghost few: { (s : Self) → length (entries s) ≤ 64 };
}

// A store that can be written, too. `put` sets one entry, or is refused as `get` of that slot is and sets none.
pub trait Storing: Reading {
    fn put(&mut self, slot: u32, rule: Rule) -> Result<(), Refusal>
        ensures stays_sound { Self.Reading.sound self.old → Self.Reading.sound self.new }
        ensures value { Self.Reading.sound self.old → result ≡ done (got (Self.Reading.entries self.old) slot) }
        ensures after { Self.Reading.sound self.old → Self.Reading.entries self.new ≡ put_into (Self.Reading.entries self.old) slot rule };
}
