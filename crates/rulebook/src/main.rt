// The program `rulebook`: does the calls of a script on a rule book, line by line, and keeps its rules in an image file.
//
// It is thin: how a line is read, done and answered, and what an image means, comes from the proved libraries below it.
#![tactic(auto)]

mod commands;
mod failure;
mod files;
mod lines;
mod lint;
mod play;
mod task;

use commands::Command;
use failure::Failure;
use std::process::ExitCode;
use std::{env, io};

const HELP: &str = "\
rulebook [--slots N | --image FILE] [--stamps KIND] [SCRIPT]
                                         do the calls of a script, and answer each line
rulebook lint [--stamps KIND] [SCRIPT]   for each line of a script its number and 0, or why it is no call
rulebook format FILE SLOTS               a new image of SLOTS open rules (1 to 64)
rulebook set FILE SLOT RULE              put a rule into a slot
rulebook show FILE                       the rule of every slot
rulebook check FILE                      whether the image is whole
rulebook task                            format, write, read and damage a store in memory, and say what happens
rulebook help                            this text
Without SCRIPT, standard input is read. Without --slots and --image, the rules are a table of 4 open rules in memory.
With --image, the file is replaced after each commit that wrote, before its answer. KIND is clock, or ticket.
A RULE is three words, ADDRESS/PREFIX ACTION FIRST-LAST, as in 192.0.2.0/24 block 0-65535.
";

fn run(rt: &HostRuntime) -> Result<(), Failure> {
    let words: Vec<String> = env::args(rt)?.skip(1).collect(rt.alloc())?;
    let words: Vec<&str> = words.iter().map(|word| word.as_str()).collect(rt.alloc())?;
    match commands::read(&words)? {
        Command::Play {
            place,
            stamps,
            script,
        } => play::run(rt, place, stamps, script),
        Command::Task => task::run(rt),
        Command::Help => {
            rt.print(HELP)?;
            Ok(())
        }
        Command::Format { file, slots } => commands::format(rt, file, slots),
        Command::Set {
            file,
            slot,
            network,
            action,
            ports,
        } => { commands::set(rt, file, slot, commands::rule(rt, network, action, ports)?) }
        Command::Show { file } => commands::show(rt, file),
        Command::Check { file } => commands::check(rt, file),
        Command::Lint { stamps, script } => lint::run(rt, stamps, script),
    }
}

fn main(rt: HostRuntime) -> io::Result<ExitCode> {
    match run(&rt) {
        Ok(()) => Ok(ExitCode::SUCCESS),
        Err(failure) => {
            eprintln!(rt; "rulebook: {failure}")?;
            Ok(ExitCode::FAILURE)
        }
    }
}
