// The table store: one plain row for each slot.
ghost use Rattle.std.specs.Prelude.{◌≡◌, ◌≤◌, true, length, OnOk};
ghost use Rattle.store.specs.Entries.{got, done, put_into};
ghost use Rattle.store.specs.Table.{right_size, checked, row_entry, table_entries, put_row};
ghost use Rattle.store.specs.Tables.{few_rows};

use crate::{Entry, Reading, Storing};
use refusal::{Damage, Fault, Refusal};
use rule::{Parts, Rule};

const MOST: usize = 64;

// Whether a table store can be made over these rows.
pub fn check(rows: &[Parts]) -> Result<(), Refusal>
    ensures value { result ≡ checked (length rows.now) }
    ensures ok { OnOk result ((length rows.now ≤ 64) × (right_size (length rows.now) ≡ true)) }
{
    if (1..=MOST).contains(&rows.len()) {
        Ok(())
    } else {
        Err(Refusal::WrongSize)
    }
}

// What a row means.
fn entry_of(row: Parts) -> Entry
    ensures { result ≡ row_entry row }
{
    match Rule::try_from(row) {
        Ok(rule) => Entry::Intact(rule),
        Err(_) => Entry::Broken(Damage {
            fault: Fault::Record,
            block: 0,
        }),
    }
}

// Rows that the check refuses mean the empty list.
#[derive(Drop)]
pub struct TableStore {
    rows: Vec<Parts>,
}

impl TableStore {
    pub fn new(rows: Vec<Parts>) -> TableStore
        ensures { result.rows ≡ rows }
    {
        TableStore { rows }
    }

    pub fn rows(&self) -> &[Parts]
        ensures { result.now ≡ self.now.rows.items }
    {
        &self.rows
    }

    pub fn into_rows(self) -> Vec<Parts>
        ensures { result ≡ self.rows }
    {
        self.rows
    }
}

impl Reading for TableStore {
    ghost entries = { λ s. table_entries s.rows.items };

    ghost sound = { λ _. Unit {0} };

    ghost few = { λ s. few_rows s.rows.items };

    fn count(&self) -> u32 {
        match check(&self.rows) {
            Ok(()) => self.rows.len() as u32,
            Err(_) => 0,
        }
    }

    fn get(&mut self, slot: u32) -> Result<Rule, Refusal>
        ensures same { table_entries self.new.rows.items ≡ table_entries self.old.rows.items }
        ensures stays_sound { Unit {0} → Unit {0} }
        ensures value { Unit {0} → result ≡ got (table_entries self.old.rows.items) slot }
        ensures memory { self.new ≡ self.old }
    {
        if slot >= self.count() {
            return Err(Refusal::SlotOutsideStore { slot });
        }
        entry_of(self.rows[slot as usize]).rule()
    }
}

impl Storing for TableStore {
    #[tactic(auto, using(crate::specs::Tables::put_entries))]
    fn put(&mut self, slot: u32, rule: Rule) -> Result<(), Refusal>
        ensures stays_sound { Unit {0} → Unit {0} }
        ensures value { Unit {0} → result ≡ done (got (table_entries self.old.rows.items) slot) }
        ensures after { Unit {0} → table_entries self.new.rows.items ≡ put_into (table_entries self.old.rows.items) slot rule }
        ensures memory { self.new.rows.items ≡ put_row self.old.rows.items slot rule }
    {
        self.get(slot)?;
        self.rows[slot as usize] = Parts::from(rule);
        Ok(())
    }
}
