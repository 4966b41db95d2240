// Writing blocks.
ghost use Rattle.std.specs.Prelude.{◌≡◌, ◌<◌, replicate};
ghost use Rattle.rule.specs.Making.{open_rule};
ghost use Rattle.block.specs.Layout.{with_record, sealed, rewritten, laid_out, WrittenReadsBack};

use crate::head::Head;
use crate::records::record_bytes;
use crate::sum::checksum;
use crate::{Block, FIRST, NUMBER_AT, RECORD, SLOTS_AT};
use rule::Rule;

// Writes the check of the other bytes.
#[tactic(auto, using(crate::specs::Sealed::behind_check), unfolding(crate::specs::Layout::sealed, crate::specs::Layout::with_check))]
fn seal(block: &mut Block)
    ensures { block.new ≡ sealed block.old }
{
    let check = checksum(&block[2..]);
    block[..2].copy_from_slice(&check.to_be_bytes());
}

// Writes record `i`, and leaves the check as it is.
#[tactic(auto, using(crate::specs::Rewritten::record_pasted))]
fn copy_record(block: &mut Block, i: usize, rule: Rule)
    requires { i < 32 }
    ensures { block.new ≡ with_record block.old i rule }
{
    let start = FIRST + RECORD * i;
    block[start..start + RECORD].copy_from_slice(&record_bytes(rule));
}

// Writes record `i`, and the check anew.
#[tactic(auto, unfolding(crate::specs::Layout::rewritten))]
pub(crate) fn write_record(block: &mut Block, i: usize, rule: Rule)
    requires { i < 32 }
    ensures { block.new ≡ rewritten block.old i rule }
{
    copy_record(block, i, rule);
    seal(block);
}

// Writes a block with this head and an open rule in each of its slots, whatever stood there.
pub(crate) fn format_block(block: &mut Block, head: Head)
    ensures { block.new ≡ laid_out head.number (replicate head.slots open_rule) }
{
    block.fill(0);
    block[NUMBER_AT] = head.number;
    block[SLOTS_AT] = head.slots;
    // by number: the library does not say what a slice holds after `chunks_mut`
    for i in 0..usize::from(head.slots) {
        copy_record(block, i, Rule::open());
    }
    seal(block);
}

// A block that is written is a block that reads back.
pub fn written_reads_back()
    ensures { WrittenReadsBack }
{}
