// Image files: the blocks of a block store and nothing else.
//
// An image tells its own count, by its size and by byte 3 of its last block. It is opened only if that count can be told
// and no block is damaged.
#![tactic(auto)]

ghost use Rattle.std.specs.Prelude.{◌≡◌, ◌≤◌, length, slice_index, IfOk, Ok, Err, MatchResult};
ghost use Rattle.block.specs.Memory.{block_entries};
ghost use Rattle.image.specs.Image.{count_with, image_count, image_check};

use block::block_store::BlockStore;
use block::{BLOCK, SLOTS, SLOTS_AT};
use refusal::{Damage, Fault, Refusal};

// How many slots an image has with so many whole blocks before its last one.
fn count_with(before: u32, last: &[u8; BLOCK]) -> Result<u32, Refusal>
    requires { before ≤ 1 }
    ensures { result ≡ count_with before (slice_index last.now 3) }
{
    let slots = u32::from(last[SLOTS_AT]);
    if !(1..=SLOTS).contains(&slots) {
        return Err(Refusal::Damaged(Damage {
            fault: Fault::Head,
            block: before,
        }));
    }
    Ok(SLOTS * before + slots)
}

// How many slots the image has.
pub fn count(bytes: &[u8]) -> Result<u32, Refusal>
    ensures { result ≡ image_count bytes.now }
{
    match bytes.as_chunks::<BLOCK>() {
        ([last], []) => count_with(0, last),
        ([_, last], []) => count_with(1, last),
        _ => Err(Refusal::WrongSize),
    }
}

// The store in an image.
pub fn open(bytes: Vec<u8>) -> Result<BlockStore, Refusal>
    ensures value { MatchResult result (λ s. image_check bytes.items ≡ Ok s.count) (λ e. image_check bytes.items ≡ Err e) }
    ensures memory { IfOk result (λ s. s.bytes ≡ bytes) }
    ensures all_slots { IfOk result (λ s. length (block_entries bytes.items s.count) ≡ s.count) }
{
    let slots = count(&bytes)?;
    let store = BlockStore::new(bytes, slots);
    store.check_entries()?;
    Ok(store)
}
