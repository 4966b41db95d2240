// The whole task in memory: a store is formatted, written, read and damaged.
use crate::failure::{Cause, Failure};
use block::block_store::{BlockStore, memory_size};
use block::memory;
use rule::Rule;
use store::{Reading, Storing};

const SLOTS: u32 = 4;

fn print_slots(rt: &HostRuntime, store: &mut impl Reading) -> Result<(), Failure> {
    for slot in 0..store.count() {
        match store.get(slot) {
            Ok(rule) => println!(rt; "  slot {slot}: {rule}")?,
            Err(refusal) => {
                let cause = Cause(refusal);
                println!(rt; "  slot {slot}: refused {cause}")?;
            }
        }
    }
    Ok(())
}

pub(crate) fn run(rt: &HostRuntime) -> Result<(), Failure> {
    let mut bytes = vec![in rt.alloc(); 0u8; memory_size(SLOTS)?]?;
    memory::format(bytes.as_mut_slice(), SLOTS)?;
    let mut store = BlockStore::new(bytes, SLOTS);
    rt.println("formatted, 4 slots")?;
    let rule = Rule::read(b"192.0.2.0/24 block 0-65535")?;
    store.put(3, rule)?;
    println!(rt; "put {rule} into slot 3")?;
    print_slots(rt, &mut store)?;
    let mut bytes = store.into_bytes();
    if let Some(byte) = bytes.get_mut(52) {
        *byte ^= 1;
    }
    rt.println("one bit of byte 52 turned over, which lies in the record of slot 3")?;
    let mut store = BlockStore::new(bytes, SLOTS);
    print_slots(rt, &mut store)?;
    if let Err(refusal) = store.put(3, rule) {
        let cause = Cause(refusal);
        println!(rt; "put into slot 3: refused {cause}")?;
    }
    Ok(())
}
