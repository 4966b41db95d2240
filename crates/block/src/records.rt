// Records of twelve bytes, and the rules in them.
ghost use Rattle.std.specs.Prelude.{◌≡◌, ◌<◌};
ghost use Rattle.block.specs.Layout.{record_bytes, records_in, rule_in, rule_at};

use crate::{Block, FIRST, RECORD};
use rule::{Parts, Rule};

// The bytes of a record.
#[tactic(auto, using(crate::specs::OneRecord::bytes_written), unfolding(crate::specs::Layout::record_bytes))]
pub(crate) fn record_bytes(rule: Rule) -> [u8; RECORD]
    ensures { result ≡ record_bytes rule }
{
    let parts = Parts::from(rule);
    let [a, b, c, d] = parts.address.to_be_bytes();
    let [e, f] = parts.first.to_be_bytes();
    let [g, h] = parts.last.to_be_bytes();
    [a, b, c, d, parts.prefix, parts.action, e, f, g, h, 0, 0]
}

// The rule in the bytes of a record.
#[tactic(auto, using(crate::specs::OneRecord::rule_in_none, crate::specs::OneRecord::rule_in_read))]
pub(crate) fn rule_in(bytes: &[u8; RECORD]) -> Option<Rule>
    ensures { result ≡ rule_in bytes.now }
{
    let [a, b, c, d, prefix, action, e, f, g, h, y, z] = *bytes;
    // one test of a word, since two of a byte cost a get five instructions in a hundred
    if u16::from_be_bytes([y, z]) != 0 {
        return None;
    }
    let parts = Parts {
        address: u32::from_be_bytes([a, b, c, d]),
        prefix,
        action,
        first: u16::from_be_bytes([e, f]),
        last: u16::from_be_bytes([g, h]),
    };
    Rule::try_from(parts).ok()
}

// The records of a block, and what stands behind the last slot in the form of records.
#[tactic(auto, using(crate::proofs::EachRecord::records_of))]
pub(crate) fn records(block: &Block) -> &[[u8; RECORD]]
    ensures { result.now ≡ records_in block.now }
{
    let (records, _) = block[FIRST..].as_chunks::<RECORD>();
    records
}

// The rule in record `i` of a block.
#[tactic(auto, using(crate::proofs::EachRecord::length_records, crate::proofs::EachRecord::record_at))]
pub(crate) fn rule_at(block: &Block, i: usize) -> Option<Rule>
    requires { i < 32 }
    ensures { result ≡ rule_at block.now i }
{
    rule_in(&records(block)[i])
}
