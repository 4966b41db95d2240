// What can be asked for on the command line.
use crate::failure::{Failure, Usage};
use crate::files::{load, save};
use block::block_store::memory_size;
use block::memory;
use rule::Rule;
use std::str::FromStr;
use store::{Reading, Storing};

// The kinds of stamp.
#[derive(Clone, Copy)]
pub(crate) enum Kind {
    Clock,
    Ticket,
}

// As many open rules has a table where no number is named.
const OPEN_RULES: u32 = 4;

// Where the rules of a book lie.
#[derive(Clone, Copy)]
pub(crate) enum Place<'a> {
    Table(u32),
    Image(&'a str),
}

#[derive(Drop)]
pub(crate) enum Command<'a> {
    Play {
        place: Place<'a>,
        stamps: Kind,
        script: Option<&'a str>,
    },
    Task,
    Help,
    Format {
        file: &'a str,
        slots: u32,
    },
    Set {
        file: &'a str,
        slot: u32,
        network: &'a str,
        action: &'a str,
        ports: &'a str,
    },
    Show {
        file: &'a str,
    },
    Check {
        file: &'a str,
    },
    Lint {
        stamps: Kind,
        script: Option<&'a str>,
    },
}

impl FromStr for Kind {
    type Err = Usage;

    fn from_str(word: &str) -> Result<Kind, Usage> {
        match word {
            "clock" => Ok(Kind::Clock),
            "ticket" => Ok(Kind::Ticket),
            _ => Err(Usage::Stamps),
        }
    }
}

// A number as the formats have it: decimal, within 32 bits, no leading zero.
fn number(word: &str, usage: Usage) -> Result<u32, Usage> {
    let number = text::number(word.as_bytes(), u64::from(u32::MAX)).ok_or(usage)?;
    Ok(number as u32)
}

// A script, if one is named.
fn script_of<'a>(words: &[&'a str]) -> Result<Option<&'a str>, Usage> {
    match words {
        [] => Ok(None),
        [script] => Ok(Some(*script)),
        _ => Err(Usage::Command),
    }
}

// The kind of stamp, if one is named, and the script behind it.
fn stamps_and_script<'a>(words: &[&'a str]) -> Result<(Kind, Option<&'a str>), Usage> {
    match words {
        ["--stamps", kind, rest @ ..] => Ok((kind.parse()?, script_of(rest)?)),
        _ => Ok((Kind::Clock, script_of(words)?)),
    }
}

// A script of calls, with its options.
fn play<'a>(words: &[&'a str]) -> Result<Command<'a>, Usage> {
    let (place, rest) = match words {
        ["--slots", slots, rest @ ..] => (Place::Table(number(slots, Usage::Slots)?), rest),
        ["--image", file, rest @ ..] => (Place::Image(*file), rest),
        _ => (Place::Table(OPEN_RULES), words),
    };
    let (stamps, script) = stamps_and_script(rest)?;
    Ok(Command::Play {
        place,
        stamps,
        script,
    })
}

pub(crate) fn read<'a>(words: &[&'a str]) -> Result<Command<'a>, Usage> {
    match words {
        ["lint", rest @ ..] => {
            let (stamps, script) = stamps_and_script(rest)?;
            Ok(Command::Lint { stamps, script })
        }
        ["task"] => Ok(Command::Task),
        ["help"] => Ok(Command::Help),
        ["format", file, slots] => Ok(Command::Format {
            file: *file,
            slots: number(slots, Usage::Slots)?,
        }),
        ["set", file, slot, network, action, ports] => Ok(Command::Set {
            file: *file,
            slot: number(slot, Usage::Slot)?,
            network: *network,
            action: *action,
            ports: *ports,
        }),
        ["show", file] => Ok(Command::Show { file: *file }),
        ["check", file] => Ok(Command::Check { file: *file }),
        ["format" | "set" | "show" | "check" | "task" | "help", ..] => Err(Usage::Command),
        _ => play(words),
    }
}

// The rule that three words write.
pub(crate) fn rule(
    rt: &HostRuntime,
    network: &str,
    action: &str,
    ports: &str,
) -> Result<Rule, Failure> {
    let text = format!(in rt.alloc(); "{network} {action} {ports}")?;
    Ok(Rule::read(text.as_bytes())?)
}

pub(crate) fn format(rt: &HostRuntime, file: &str, slots: u32) -> Result<(), Failure> {
    let mut bytes = vec![in rt.alloc(); 0u8; memory_size(slots)?]?;
    memory::format(bytes.as_mut_slice(), slots)?;
    save(rt, file, bytes.as_slice())?;
    println!(rt; "{file}: {slots} open rules")?;
    Ok(())
}

pub(crate) fn set(rt: &HostRuntime, file: &str, slot: u32, rule: Rule) -> Result<(), Failure> {
    let mut store = load(rt, file)?;
    store.put(slot, rule)?;
    save(rt, file, store.bytes())?;
    println!(rt; "{file}: slot {slot} is {rule}")?;
    Ok(())
}

pub(crate) fn show(rt: &HostRuntime, file: &str) -> Result<(), Failure> {
    let mut store = load(rt, file)?;
    for slot in 0..store.count() {
        let rule = store.get(slot)?;
        println!(rt; "{slot} {rule}")?;
    }
    Ok(())
}

pub(crate) fn check(rt: &HostRuntime, file: &str) -> Result<(), Failure> {
    let store = load(rt, file)?;
    let slots = store.count();
    println!(rt; "{file}: {slots} slots, no damage")?;
    Ok(())
}
