// A store in blocks of 512 bytes, such as a board's memory holds them.
//
// A block has a check over all its other bytes, a head and up to 32 records, each with one rule.
// What is wrong with a block is found before a rule is read from it or written to it.
// What is written reads back, and a write changes its record and the check and nothing else.
#![tactic(auto)]

pub mod block_store;
mod damage;
mod formatting;
mod head;
pub mod memory;
mod records;
mod sum;

pub use formatting::written_reads_back;

// How many bytes a block has.
pub const BLOCK: usize = 512;

// How many slots a block has at most.
pub const SLOTS: u32 = 32;

// Where a block has its number, and how many slots it has. Its check stands before both.
const NUMBER_AT: usize = 2;

pub const SLOTS_AT: usize = 3;

// Where the first record begins.
const FIRST: usize = 16;

// How many bytes a record has.
const RECORD: usize = 12;

type Block = [u8; BLOCK];

#[cfg(test)]
mod tests {
    use crate::BLOCK;
    use crate::damage::examine;
    use crate::formatting::{format_block, write_record};
    use crate::head::Head;
    use crate::sum::checksum;
    use rule::{Parts, Rule};
    use std::test::Fail;

    // the numerical example of RFC 1071
    #[test]
    fn example_of_the_rfc(rt: HostRuntime) {
        assert_eq!(rt;
            checksum(&[0x00, 0x01, 0xf2, 0x03, 0xf4, 0xf5, 0xf6, 0xf7]),
            0x220d
        );
    }

    // 192.0.2.0/24 block 0-65535 in a block of one slot
    #[test]
    fn check_of_one_rule(rt: HostRuntime) -> Result<(), Fail> {
        let parts = Parts {
            address: 0xC000_0200,
            prefix: 24,
            action: 1,
            first: 0,
            last: 65535,
        };
        let Ok(rule) = Rule::try_from(parts) else {
            return Err(Fail::new("the parts make a rule"));
        };
        let head = Head::of(1, 0);
        let mut block = [0u8; BLOCK];
        format_block(&mut block, head);
        write_record(&mut block, 0, rule);
        assert!(rt; examine(&block, head).is_ok());
        assert_eq!(rt; u16::from_be_bytes([block[0], block[1]]), 0x25FD);
        Ok(())
    }
}
