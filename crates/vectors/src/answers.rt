// What a command gives, and why it gives nothing.
use refusal::Refusal;
use rule::Rule;
use std::alloc::AllocError;
use std::fmt;
use thiserror::Error;

#[derive(Drop)]
pub(crate) enum Answer {
    Done,
    Read(Rule),
    Counted(u32),
    Dumped(String),
}

impl fmt::Display for Answer {
    fn fmt<W: fmt::Write>(&self, f: &mut fmt::Formatter<W>) -> fmt::Result {
        match self {
            Answer::Done => write!(f, "0"),
            Answer::Read(rule) => write!(f, "0 {rule}"),
            Answer::Counted(count) => write!(f, "0 {count}"),
            Answer::Dumped(digits) => write!(f, "0 {digits}"),
        }
    }
}

#[derive(Debug, Drop, Error)]
pub(crate) enum Trouble {
    // this alone is an answer; the other ends the program
    #[error("{0}")]
    Refused(#[from] Refusal),
    #[error(transparent)]
    NoMemory(#[from] AllocError),
}
