// The block store: a count and the bytes of its blocks.
ghost use Rattle.std.specs.Prelude.{◌≡◌, ◌+◌, ◌*◌, ◌/◌, ◌<◌, ◌≤◌, true, length, OnOk};
ghost use Rattle.store.specs.Entries.{answer, got, done, put_into, whole};
ghost use Rattle.block.specs.Layout.{rule_at, damage_of};
ghost use Rattle.block.specs.Memory.{size_for, fits, checked, read_in, entry_at, block_entries, with_rule, put_bytes};
ghost use Rattle.block.specs.Memories.{few_entries};

use crate::damage::examine;
use crate::formatting::write_record;
use crate::head::Head;
use crate::records::rule_at;
use crate::{BLOCK, Block, SLOTS};
use refusal::{Damage, Fault, Refusal};
use rule::Rule;
use store::{Reading, Storing};

// How many slots a store has at most.
const MOST: u32 = 64;

// How many bytes a store of `count` slots takes.
pub fn memory_size(count: u32) -> Result<usize, Refusal>
    ensures { result ≡ size_for count }
{
    if !(1..=MOST).contains(&count) {
        return Err(Refusal::WrongSize);
    }
    Ok(BLOCK * count.div_ceil(SLOTS) as usize)
}

// Whether a block store of `count` slots can be made over these bytes.
pub fn check(bytes: &[u8], count: u32) -> Result<(), Refusal>
    ensures value { result ≡ checked count (length bytes.now) }
    ensures ok { OnOk result (fits count (length bytes.now) ≡ true) }
{
    if bytes.len() != memory_size(count)? {
        return Err(Refusal::WrongSize);
    }
    Ok(())
}

// The rule in record `i` of a block, or what is wrong with the block.
fn rule_in_block(block: &Block, head: Head, i: usize) -> Result<Rule, Fault>
    requires { i < 32 }
    ensures { result ≡ read_in (damage_of block.now head.number head.slots) (rule_at block.now i) }
{
    examine(block, head)?;
    rule_at(block, i).ok_or(Fault::Record)
}

// The rule in slot `slot` of a memory of `count` slots. A damaged block damages all its slots.
fn rule_in_slot(bytes: &[u8], count: u32, slot: u32) -> Result<Rule, Refusal>
    requires { (fits count (length bytes.now) ≡ true) × (slot < count) }
    ensures { result ≡ answer (entry_at bytes.now count slot) }
{
    let (blocks, _) = bytes.as_chunks::<BLOCK>();
    let number = slot / SLOTS;
    let head = Head::of(count, number);
    rule_in_block(&blocks[number as usize], head, (slot % SLOTS) as usize).map_err(|fault| {
        Refusal::Damaged(Damage {
            fault,
            block: number,
        })
    })
}

// Writes the record of a slot and the check of its block.
fn write_slot(bytes: &mut [u8], slot: u32, rule: Rule)
    requires { 512 * (slot / 32) + 512 ≤ length bytes.old }
    ensures { bytes.new ≡ with_rule bytes.old slot rule }
{
    // split: of what `bytes[start..]` lends on, a proof would know the length alone
    let (_, rest) = bytes.split_at_mut(BLOCK * (slot / SLOTS) as usize);
    let block = rest.first_chunk_mut().unwrap();
    write_record(block, (slot % SLOTS) as usize, rule);
}

// A memory that the check refuses means the empty list.
#[derive(Drop)]
pub struct BlockStore {
    bytes: Vec<u8>,
    count: u32,
}

impl BlockStore {
    pub fn new(bytes: Vec<u8>, count: u32) -> BlockStore
        ensures bytes { result.bytes ≡ bytes }
        ensures count { result.count ≡ count }
    {
        BlockStore { bytes, count }
    }

    pub fn bytes(&self) -> &[u8]
        ensures { result.now ≡ self.now.bytes.items }
    {
        self.bytes.as_slice()
    }

    pub fn into_bytes(self) -> Vec<u8>
        ensures { result ≡ self.bytes }
    {
        self.bytes
    }

    // Whether every slot holds a rule; else the first damage.
    #[tactic(auto, using(store::specs::Slots::whole_stop, store::specs::Slots::whole_all))]
    pub fn check_entries(&self) -> Result<(), Refusal>
        ensures { result ≡ whole (block_entries self.now.bytes.items self.now.count) }
    {
        for slot in 0..self.slots() {
            self.rule_at(slot)?;
        }
        Ok(())
    }

    // How many slots count: none, where the check refuses the memory.
    #[tactic(auto, using(crate::specs::Memories::length_entries))]
    fn slots(&self) -> u32
        ensures { result ≡ length (block_entries self.now.bytes.items self.now.count) }
    {
        match check(&self.bytes, self.count) {
            Ok(()) => self.count,
            Err(_) => 0,
        }
    }

    // The rule in a slot, or why there is none.
    #[tactic(auto, using(store::specs::Slots::got_outside, crate::specs::Memories::got_entry))]
    fn rule_at(&self, slot: u32) -> Result<Rule, Refusal>
        ensures { result ≡ got (block_entries self.now.bytes.items self.now.count) slot }
    {
        if slot >= self.slots() {
            return Err(Refusal::SlotOutsideStore { slot });
        }
        rule_in_slot(&self.bytes, self.count, slot)
    }
}

impl Reading for BlockStore {
    ghost entries = { λ s. block_entries s.bytes.items s.count };

    ghost sound = { λ _. Unit {0} };

    ghost few = { λ s. few_entries s.bytes.items s.count };

    fn count(&self) -> u32 {
        self.slots()
    }

    fn get(&mut self, slot: u32) -> Result<Rule, Refusal>
        ensures same { block_entries self.new.bytes.items self.new.count ≡ block_entries self.old.bytes.items self.old.count }
        ensures stays_sound { Unit {0} → Unit {0} }
        ensures value { Unit {0} → result ≡ got (block_entries self.old.bytes.items self.old.count) slot }
        ensures memory { self.new ≡ self.old }
    {
        self.rule_at(slot)
    }
}

impl Storing for BlockStore {
    fn put(&mut self, slot: u32, rule: Rule) -> Result<(), Refusal>
        ensures stays_sound { Unit {0} → Unit {0} }
        ensures value { Unit {0} → result ≡ done (got (block_entries self.old.bytes.items self.old.count) slot) }
        ensures after { Unit {0} → block_entries self.new.bytes.items self.new.count ≡ put_into (block_entries self.old.bytes.items self.old.count) slot rule }
        ensures memory { self.new.bytes.items ≡ put_bytes self.old.bytes.items self.old.count slot rule }
        ensures count { self.new.count ≡ self.old.count }
    {
        self.rule_at(slot)?;
        write_slot(&mut self.bytes, slot, rule);
        Ok(())
    }
}
