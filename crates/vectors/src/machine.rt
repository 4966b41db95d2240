// The state that the commands work on: a store over blocks, and one over the rows of a table.
use crate::answers::{Answer, Trouble};
use crate::words::{bytes, digits, number, parts};
use block::block_store::{BlockStore, check};
use block::memory::format;
use rule::{Parts, Rule};
use std::alloc::{AllocError, Global};
use std::mem;
use store::table::TableStore;
use store::{Reading, Storing, table};

#[derive(Drop)]
pub(crate) struct Machine {
    blocks: BlockStore,
    table: TableStore,
}

fn get(store: &mut impl Reading, slot: u32) -> Result<Answer, Trouble> {
    Ok(Answer::Read(store.get(slot)?))
}

fn put(store: &mut impl Storing, slot: u32, rule: Parts) -> Result<Answer, Trouble> {
    store.put(slot, Rule::try_from(rule)?)?;
    Ok(Answer::Done)
}

impl Machine {
    pub(crate) fn new(heap: Global) -> Machine {
        Machine {
            blocks: BlockStore::new(Vec::new(heap), 0),
            table: TableStore::new(Vec::new(heap)),
        }
    }

    // The bytes of the blocks, of which the caller makes a store again.
    fn take_bytes(&mut self, heap: Global) -> Vec<u8> {
        mem::replace(&mut self.blocks, BlockStore::new(Vec::new(heap), 0)).into_bytes()
    }

    // A memory that begins with these bytes and goes on with zeros.
    fn memory(&mut self, count: u32, length: u32, mut bytes: Vec<u8>) -> Result<Answer, Trouble> {
        bytes.resize(bytes.len().max(length as usize), 0)?;
        let checked = check(&bytes, count);
        self.blocks = BlockStore::new(bytes, count);
        checked?;
        Ok(Answer::Done)
    }

    fn format(&mut self, heap: Global, count: u32) -> Result<Answer, Trouble> {
        let kept = self.blocks.count();
        let mut bytes = self.take_bytes(heap);
        let formatted = format(&mut bytes, count);
        let count = if formatted.is_ok() { count } else { kept };
        self.blocks = BlockStore::new(bytes, count);
        formatted?;
        Ok(Answer::Done)
    }

    fn poke(&mut self, heap: Global, offset: u32, byte: u32) -> Answer {
        let count = self.blocks.count();
        let mut bytes = self.take_bytes(heap);
        if let Some(place) = bytes.get_mut(offset as usize) {
            *place = (byte & 0xff) as u8;
        }
        self.blocks = BlockStore::new(bytes, count);
        Answer::Done
    }

    // How many slots the memory has as an image.
    fn image(&self, heap: Global) -> Result<Answer, Trouble> {
        let store = image::open(self.blocks.bytes().to_vec(heap)?)?;
        Ok(Answer::Counted(store.count()))
    }

    fn rows(&mut self, heap: Global, count: u32) -> Result<Answer, Trouble> {
        let rows = vec![in heap; Parts::from(Rule::open()); count as usize]?;
        let checked = table::check(&rows);
        self.table = TableStore::new(rows);
        checked?;
        Ok(Answer::Done)
    }

    fn row(&mut self, heap: Global, slot: u32, row: Parts) -> Answer {
        let mut rows = mem::replace(&mut self.table, TableStore::new(Vec::new(heap))).into_rows();
        if let Some(place) = rows.get_mut(slot as usize) {
            *place = row;
        }
        self.table = TableStore::new(rows);
        Answer::Done
    }

    pub(crate) fn answer(&mut self, heap: Global, line: &str) -> Result<Answer, Trouble> {
        let words: Vec<&str> = line.split(' ').collect(heap)?;
        let words = words.as_slice();
        let first = number(words, 1);
        match words.first().copied().unwrap_or("") {
            "memory" => self.memory(first, number(words, 2), bytes(heap, words, 3)?),
            "format" => self.format(heap, first),
            "count" => Ok(Answer::Counted(self.blocks.count())),
            "get" => get(&mut self.blocks, first),
            "put" => put(&mut self.blocks, first, parts(words, 2)),
            "poke" => Ok(self.poke(heap, first, number(words, 2))),
            "image" => self.image(heap),
            "dump" => Ok(Answer::Dumped(digits(heap, self.blocks.bytes())?)),
            "text" => Ok(Answer::Read(Rule::read(&bytes(heap, words, 1)?)?)),
            "parts" => Ok(Answer::Read(Rule::try_from(parts(words, 1))?)),
            "rows" => self.rows(heap, first),
            "row" => Ok(self.row(heap, first, parts(words, 2))),
            "tget" => get(&mut self.table, first),
            "tput" => put(&mut self.table, first, parts(words, 2)),
            // `tcount`, and any word that is no command
            _ => Ok(Answer::Counted(self.table.count())),
        }
    }
}
