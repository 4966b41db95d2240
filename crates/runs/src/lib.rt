// A run: a list of calls on a book made for it.
//
// The answers, and what the book holds in the end, are those of the definitions of the calls, one call after another. The law of the book
// holds of the calls with their answers, from the first entries of the store to the last.
#![tactic(auto)]

ghost use Rattle.std.specs.Prelude.{◌≡◌, [], map, length, IfOk, vec_len};
ghost use Rattle.calls.specs.State.{just_made};
ghost use Rattle.calls.specs.Histories.{Reached, history, final, LawOf};
ghost use Rattle.book.specs.Runs.{events};
ghost use Rattle.book.specs.Views.{view, answer_view, call_view};

use book::Book;
use protocol::{Answer, Call};
use stamp::Stamp;
use std::alloc::{AllocError, Global};
use store::Storing;

// What a run leaves.
#[derive(Drop)]
pub struct Outcome<S> {
    // one for each call, in their order
    pub answers: Vec<Answer>,
    pub book: Book<S>,
}

// Makes a book over a store, and the calls on it one after another.
pub fn run<S: Storing + Drop, K: Stamp>(
    store: S,
    calls: &[Call<K>],
    heap: Global,
) -> Result<Outcome<S>, AllocError>
    ensures count { IfOk result (λ run. vec_len run.answers ≡ length calls.now) }
    ensures history { S.Reading.sound store → IfOk result (λ run. events (map (call_view K.Stamp.key_of) calls.now) (map answer_view run.answers.items) [] ≡ history (just_made (S.Reading.entries store)) (map (call_view K.Stamp.key_of) calls.now) []) }
    ensures last { S.Reading.sound store → IfOk result (λ run. view S.Reading run.book ≡ final (just_made (S.Reading.entries store)) (map (call_view K.Stamp.key_of) calls.now)) }
    ensures reached { S.Reading.sound store → IfOk result (λ run. Reached (S.Reading.entries store) (events (map (call_view K.Stamp.key_of) calls.now) (map answer_view run.answers.items) []) (view S.Reading run.book)) }
    ensures law { S.Reading.sound store → IfOk result (λ run. LawOf (S.Reading.entries store) (events (map (call_view K.Stamp.key_of) calls.now) (map answer_view run.answers.items) []) (S.Reading.entries run.book.store)) }
{
    let mut answers = Vec::with_capacity(heap, calls.len())?;
    let mut book = Book::new(store, heap)?;
    for call in calls {
        answers.push_reserved(book.apply(*call));
    }
    Ok(Outcome { answers, book })
}

#[cfg(test)]
mod tests {
    use super::*;
    use protocol::Reply;
    use rule::{Parts, Rule};
    use stamp::ClockStamp;
    use std::test::Fail;
    use store::table::TableStore;

    // One session fetches, reads, writes, puts forward and commits, and is then refused for its phase.
    #[test]
    fn one_change(rt: HostRuntime) -> Result<(), Fail> {
        let rows: Vec<Parts> = vec![in rt.alloc();
            Parts::from(Rule::open()),
            Parts::from(Rule::open()),
        ]?;
        let stamp = ClockStamp {
            time: 7,
            station: 1,
        };
        let calls = [
            Call::Begin { session: 0 },
            Call::Fetch {
                session: 0,
                slot: 1,
            },
            Call::Read {
                session: 0,
                slot: 1,
            },
            Call::Write {
                session: 0,
                slot: 1,
                rule: Rule::open(),
            },
            Call::Forward { session: 0, stamp },
            Call::Commit { session: 0 },
            Call::Forward { session: 0, stamp },
        ];
        let done = run(TableStore::new(rows), &calls, rt.alloc())?;
        assert!(rt; done.answers.len() == 7);
        let Ok(Reply::Numbered(number)) = done.answers[5] else {
            return Err(Fail::new("the commit was refused"));
        };
        assert_eq!(rt; number, 1);
        assert!(rt; done.answers[6].is_err());
        Ok(())
    }
}
