// Scripts that are done: each line is one call on a book, and is answered as soon as it is done.
use crate::commands::{Kind, Place};
use crate::failure::Failure;
use crate::files::{load, save};
use crate::lines::Script;
use block::block_store::BlockStore;
use book::Book;
use protocol::{Answer, Reply};
use rule::{Parts, Rule};
use script::do_line;
use stamp::{ClockStamp, Stamp, Ticket};
use store::Storing;
use store::table::TableStore;

// Does the lines of a script one after another. A commit that wrote has raised the notice number, and its store is kept before it is answered.
fn play<S: Storing + Drop, K: Stamp, F: Fn(&S) -> Result<(), Failure>>(
    rt: &HostRuntime,
    store: S,
    keep: F,
    script: Script<'_>,
) -> Result<(), Failure>
    requires { (f : _) (x : _) → F.pre f x }
{
    let mut book = Book::new(store, rt.alloc())?;
    let mut kept = 0;
    script.answer(
        rt,
        |line: &[u8]| -> Result<Answer, Failure>
            requires { (f : _) (x : _) → F.pre f x }
        {
            let answer = do_line::<S, K>(&mut book, line);
            if let Ok(Reply::Numbered(number)) = answer {
                if number > kept {
                    keep(book.store())?;
                    kept = number;
                }
            }
            Ok(answer)
        },
    )
}

// No value picks a type, so each kind of stamps has its arm.
fn play_by<S: Storing + Drop, F: Fn(&S) -> Result<(), Failure>>(
    rt: &HostRuntime,
    stamps: Kind,
    store: S,
    keep: F,
    script: Script<'_>,
) -> Result<(), Failure>
    requires { (f : _) (x : _) → F.pre f x }
{
    match stamps {
        Kind::Clock => play::<S, ClockStamp, F>(rt, store, keep, script),
        Kind::Ticket => play::<S, Ticket, F>(rt, store, keep, script),
    }
}

// A table of open rules.
fn table(rt: &HostRuntime, slots: u32) -> Result<TableStore, Failure> {
    // one row too many is enough to be refused
    let rows = vec![in rt.alloc(); Parts::from(Rule::open()); slots.min(65) as usize]?;
    store::table::check(rows.as_slice())?;
    Ok(TableStore::new(rows))
}

// Plays a script, or standard input.
pub(crate) fn run(
    rt: &HostRuntime,
    place: Place,
    stamps: Kind,
    script: Option<&str>,
) -> Result<(), Failure> {
    let script = Script::open(rt, script)?;
    match place {
        // a table is in memory only
        Place::Table(slots) => play_by(rt, stamps, table(rt, slots)?, |_| Ok(()), script),
        Place::Image(file) => {
            let keep = |store: &BlockStore| save(rt, file, store.bytes());
            play_by(rt, stamps, load(rt, file)?, keep, script)
        }
    }
}
