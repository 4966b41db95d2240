// Formatting of a whole memory.
ghost use Rattle.std.specs.Prelude.{◌≡◌, length, replicate, OnOk};
ghost use Rattle.rule.specs.Making.{open_rule};
ghost use Rattle.store.specs.declared.Entry.TheVariants.{Intact};
ghost use Rattle.block.specs.Memory.{checked, block_entries, format_bytes};

use crate::block_store::check;
use crate::formatting::format_block;
use crate::head::Head;
use crate::{BLOCK, SLOTS};
use refusal::Refusal;

// Writes blocks of open rules over a memory of `count` slots, whatever it held.
pub fn format(bytes: &mut [u8], count: u32) -> Result<(), Refusal>
    ensures value { result ≡ checked count (length bytes.old) }
    ensures after { bytes.new ≡ format_bytes bytes.old count }
    ensures reads_back { OnOk result (block_entries bytes.new count ≡ replicate count (Intact open_rule)) }
{
    check(bytes, count)?;
    // by number: the library does not say what a slice holds after `chunks_mut`
    for number in 0..count.div_ceil(SLOTS) {
        let head = Head::of(count, number);
        let (_, rest) = bytes.split_at_mut(BLOCK * number as usize);
        let block = rest.first_chunk_mut().unwrap();
        format_block(block, head);
    }
    Ok(())
}
