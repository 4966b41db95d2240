// Scripts that are only read: each line is said to be a call, or is refused.
use crate::commands::Kind;
use crate::failure::Failure;
use crate::lines::Script;
use line::read_call;
use protocol::{Answer, Reply};
use stamp::{ClockStamp, Stamp, Ticket};

// Whether a line is a call.
fn verdict<S: Stamp>(line: &[u8]) -> Answer {
    read_call::<S>(line)?;
    Ok(Reply::Done)
}

// Reads a script, or standard input.
pub(crate) fn run(rt: &HostRuntime, stamps: Kind, script: Option<&str>) -> Result<(), Failure> {
    let script = Script::open(rt, script)?;
    // no value picks a type, so each kind of stamps has its arm
    match stamps {
        Kind::Clock => script.answer(rt, |line| Ok(verdict::<ClockStamp>(line))),
        Kind::Ticket => script.answer(rt, |line| Ok(verdict::<Ticket>(line))),
    }
}
