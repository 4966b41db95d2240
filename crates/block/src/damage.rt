// What is wrong with a block.
ghost use Rattle.std.specs.Prelude.{◌≡◌, ◌≤◌};
ghost use Rattle.std.specs.Result.{result_err};
ghost use Rattle.block.specs.Layout.{all_zero, rules_below, check_right, head_right, body_right, damage_of};

use crate::head::Head;
use crate::records::{records, rule_in};
use crate::sum::checksum;
use crate::{Block, FIRST, NUMBER_AT, RECORD, SLOTS_AT};
use refusal::Fault;

#[tactic(auto, using(crate::proofs::Zeros::all_seen_zero))]
fn all_zero(bytes: &[u8]) -> bool
    ensures { result ≡ all_zero bytes.now }
{
    // over all bytes without a way out, so that many are taken at once
    bytes.iter().fold(0, |seen, byte| seen | *byte) == 0
}

fn rules_below(block: &Block, slots: usize) -> bool
    requires { slots ≤ 32 }
    ensures { result ≡ rules_below block.now slots }
{
    records(block)[..slots]
        .iter()
        .all(|record| rule_in(record).is_some())
}

#[tactic(auto, using(crate::specs::Sealed::behind_check), unfolding(crate::specs::Layout::check_right))]
fn check_right(block: &Block) -> bool
    ensures { result ≡ check_right block.now }
{
    u16::from_be_bytes([block[0], block[1]]) == checksum(&block[2..])
}

#[tactic(auto, unfolding(crate::specs::Layout::head_right))]
fn head_right(block: &Block, head: Head) -> bool
    ensures { result ≡ head_right block.now head.number head.slots }
{
    block[NUMBER_AT] == head.number && block[SLOTS_AT] == head.slots && all_zero(&block[4..FIRST])
}

#[tactic(auto, unfolding(crate::specs::Layout::body_right))]
fn body_right(block: &Block, slots: usize) -> bool
    requires { slots ≤ 32 }
    ensures { result ≡ body_right block.now slots }
{
    rules_below(block, slots) && all_zero(&block[FIRST + RECORD * slots..])
}

// The first thing that is wrong with a block that ought to have this head, if anything is.
#[tactic(auto, unfolding(crate::specs::Layout::damage_of))]
pub(crate) fn examine(block: &Block, head: Head) -> Result<(), Fault>
    ensures { result_err result ≡ damage_of block.now head.number head.slots }
{
    if !check_right(block) {
        return Err(Fault::Check);
    }
    if !head_right(block, head) {
        return Err(Fault::Head);
    }
    if !body_right(block, usize::from(head.slots)) {
        return Err(Fault::Record);
    }
    Ok(())
}
