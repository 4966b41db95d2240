// Scripts, read line by line, and the answers to their lines.
use crate::failure::{Failure, OnFile, Tried};
use answer::AnswerLine;
use either::Either;
use protocol::Answer;
use std::fs::File;
use std::io::{BufRead, BufReader, Stdin};

#[derive(Drop)]
pub(crate) struct Script<'a> {
    // told where the script cannot be read
    name: &'a str,
    lines: BufReader<Either<File, Stdin>>,
}

impl<'a> Script<'a> {
    // The script in a file or, where none is named, on standard input.
    pub(crate) fn open(rt: &HostRuntime, file: Option<&'a str>) -> Result<Self, Failure> {
        let name = file.unwrap_or("standard input");
        let reader = match file {
            Some(file) => Either::Left(File::open(rt, file).on_file(
                rt.alloc(),
                Tried::Read,
                name,
            )?),
            None => Either::Right(rt.stdin()),
        };
        let lines = BufReader::new(rt.alloc(), reader)?;
        Ok(Script { name, lines })
    }

    // Reads the next line, without the byte that ends it: whether there is one. All lines have one buffer, so that none takes memory of its own.
    fn read_line(&mut self, rt: &HostRuntime, line: &mut Vec<u8>) -> Result<bool, Failure> {
        line.clear();
        let read = self
            .lines
            .read_until(b'\n', line)
            .on_file(rt.alloc(), Tried::Read, self.name)?;
        line.pop_if(|last| *last == b'\n');
        Ok(read > 0)
    }

    // Answers the lines one after another. An answer is written out whole before the next line is read, since whoever asked may wait for it.
    pub(crate) fn answer<F: FnMut(&[u8]) -> Result<Answer, Failure>>(
        mut self,
        rt: &HostRuntime,
        mut answer_to: F,
    ) -> Result<(), Failure>
        requires { F.IsAlwaysCallable answer_to }
    {
        let mut asked = Vec::new(rt.alloc());
        let mut written = Vec::new(rt.alloc());
        // no script has more lines
        for line in 1..u64::MAX {
            if !self.read_line(rt, &mut asked)? {
                break;
            }
            let answer = answer_to(asked.as_slice())?;
            written.clear();
            AnswerLine { line, answer }.push_text(&mut written)?;
            written.push(b'\n')?;
            write_out(rt, written.as_slice())?;
        }
        Ok(())
    }
}

// Writes bytes out at once.
fn write_out(rt: &HostRuntime, bytes: &[u8]) -> Result<(), Failure> {
    rt.write_all(bytes)
        .on_file(rt.alloc(), Tried::Write, "standard output")
}
