// Why the program stops with status 1: one line for each reason.
use refusal::Refusal;
use std::alloc::{AllocError, Global};
use std::{fmt, io};
use thiserror::Error;

// What is wrong with the words on the command line.
#[derive(Clone, Copy, Debug, Error)]
pub(crate) enum Usage {
    #[error("no such command, or not its words")]
    Command,
    #[error("SLOTS is a decimal number")]
    Slots,
    #[error("SLOT is a decimal number")]
    Slot,
    #[error("the stamps are clock or ticket")]
    Stamps,
}

// What was tried on a file.
#[derive(Clone, Copy, Debug)]
pub(crate) enum Tried {
    Read,
    Write,
}

impl fmt::Display for Tried {
    fn fmt<W: fmt::Write>(&self, f: &mut fmt::Formatter<W>) -> fmt::Result {
        match *self {
            Tried::Read => write!(f, "read"),
            Tried::Write => write!(f, "write"),
        }
    }
}

// A refusal, told by its numbers and in words.
#[derive(Clone, Copy, Debug)]
pub(crate) struct Cause(pub(crate) Refusal);

impl fmt::Display for Cause {
    fn fmt<W: fmt::Write>(&self, f: &mut fmt::Formatter<W>) -> fmt::Result {
        let Cause(refusal) = *self;
        let meaning = refusal.meaning();
        write!(f, "{refusal}: {meaning}")
    }
}

#[derive(Debug, Drop, Error)]
pub(crate) enum Failure {
    #[error("{0}; see rulebook help")]
    Usage(#[from] Usage),
    #[error("refused {0}")]
    Refused(Cause),
    #[error("cannot {tried} {file}: {error}")]
    File {
        tried: Tried,
        file: String,
        error: io::Error,
    },
    // standard input or output, or the arguments
    #[error(transparent)]
    System(#[from] io::Error),
    #[error("out of memory")]
    Memory(#[from(alloc)] AllocError),
}

// By hand, since the text that `thiserror` writes cannot call `meaning`.
impl From<Refusal> for Failure {
    fn from(refusal: Refusal) -> Failure {
        Failure::Refused(Cause(refusal))
    }
}

// Tells of an error what was tried, and on which file.
pub(crate) trait OnFile<T> {
    fn on_file(self, heap: Global, tried: Tried, file: &str) -> Result<T, Failure>;
}

impl<T> OnFile<T> for io::Result<T> {
    fn on_file(self, heap: Global, tried: Tried, file: &str) -> Result<T, Failure> {
        self.map_err(|error| match String::from_str(heap, file) {
            Ok(file) => Failure::File { tried, file, error },
            Err(_) => Failure::System(error),
        })
    }
}
