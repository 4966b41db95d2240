// Gets and puts on a block store of 64 slots, so that bench/store can hold their cost to that of plain Rust.
//
// bench_store gets ROUNDS, bench_store puts ROUNDS
#![tactic(auto)]

use anyhow::anyhow;
use block::block_store::{BlockStore, memory_size};
use block::memory::format;
use refusal::Refusal;
use rule::{Parts, Rule};
use std::env;
use store::{Reading, Storing};

const SLOTS: u32 = 64;

// Some rule, another one for each round.
fn some_rule(round: u32) -> Result<Rule, Refusal> {
    Rule::try_from(Parts {
        address: round.wrapping_mul(256),
        prefix: 24,
        action: (round % 2) as u8,
        first: (round % 50000) as u16,
        last: 65535,
    })
}

fn gets(store: &mut BlockStore, rounds: u32) -> Result<u64, Refusal> {
    let mut sum = 0u64;
    for round in 0..rounds {
        let parts = Parts::from(store.get(round.wrapping_mul(11) % SLOTS)?);
        sum = sum.wrapping_add(u64::from(parts.first) + u64::from(parts.address));
    }
    Ok(sum)
}

fn puts(store: &mut BlockStore, rounds: u32) -> Result<u64, Refusal> {
    for round in 0..rounds {
        store.put(round.wrapping_mul(7) % SLOTS, some_rule(round)?)?;
    }
    gets(store, SLOTS)
}

fn run(store: &mut BlockStore, what: &str, rounds: u32) -> Result<u64, Refusal> {
    puts(store, 2 * SLOTS)?;
    if what == "gets" {
        gets(store, rounds)
    } else {
        puts(store, rounds)
    }
}

fn main(rt: HostRuntime) -> anyhow::Result<()> {
    let heap = rt.alloc();
    let words: Vec<String> = env::args(&rt)?.skip(1).collect(heap)?;
    let [what, rounds] = words.as_slice() else {
        return Err(anyhow!("bench_store gets ROUNDS, bench_store puts ROUNDS"));
    };
    let mut bytes = vec![in heap; 0u8; memory_size(SLOTS)?]?;
    format(&mut bytes, SLOTS)?;
    let mut store = BlockStore::new(bytes, SLOTS);
    let rounds = rounds.parse::<u32>()?;
    let sum = run(&mut store, what, rounds)?;
    println!(rt; "{what} {rounds} {sum}")?;
    Ok(())
}
