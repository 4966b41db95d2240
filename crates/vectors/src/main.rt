// Answers the commands of the case file on standard input, one line each, so that what it writes can be held to the reference's answers.
#![tactic(auto)]

mod answers;
mod machine;
mod words;

use answers::Trouble;
use machine::Machine;
use std::io::{BufRead, BufReader};

fn main(rt: HostRuntime) -> anyhow::Result<()> {
    let heap = rt.alloc();
    let mut machine = Machine::new(heap);
    for line in BufReader::new(heap, rt.stdin())?.lines(heap) {
        match machine.answer(heap, line?.as_str()) {
            Ok(answer) => println!(rt; "{answer}")?,
            Err(Trouble::Refused(refusal)) => println!(rt; "{refusal}")?,
            Err(trouble) => return Err(trouble.into()),
        }
    }
    Ok(())
}
