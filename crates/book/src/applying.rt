// One call given as a value.
ghost use Rattle.std.specs.Prelude.{◌≡◌, List, ◌∷◌};
ghost use Rattle.store.specs.declared.Entry.{Entry};
ghost use Rattle.calls.specs.Calls.{answer, after};
ghost use Rattle.calls.specs.Histories.{Event, Reached, LawOf};
ghost use Rattle.book.specs.Runs.{Sound, said};
ghost use Rattle.book.specs.Views.{view, answer_view, call_view};

use crate::Book;
use protocol::{Answer, Call, Reply};
use stamp::Stamp;
use store::Storing;

impl<S: Storing> Book<S> {
    // Makes a call. A book that is reached by a history is then reached by that history with the call and its answer added,
    // and the law holds of it.
    pub fn apply<K: Stamp>(&mut self, call: Call<K>) -> Answer
        ensures answer { Sound S.Reading self.old → answer_view result ≡ answer (view S.Reading self.old) (call_view K.Stamp.key_of call) }
        ensures after { Sound S.Reading self.old → view S.Reading self.new ≡ after (view S.Reading self.old) (call_view K.Stamp.key_of call) }
        ensures sound { Sound S.Reading self.old → Sound S.Reading self.new }
        ensures store { S.Reading.sound self.old.store → S.Reading.sound self.new.store }
        ensures reached { S.Reading.sound self.old.store → (first : List Entry) (h : List Event) → Reached first h (view S.Reading self.old) → Reached first (said (call_view K.Stamp.key_of call) (answer_view result) ∷ h) (view S.Reading self.new) }
        ensures law { S.Reading.sound self.old.store → (first : List Entry) (h : List Event) → Reached first h (view S.Reading self.old) → LawOf first (said (call_view K.Stamp.key_of call) (answer_view result) ∷ h) (S.Reading.entries self.new.store) }
    {
        self.dispatch(call)
    }

    // The call, by the method that makes it. Apart from `apply`, so that `sound`, `reached` and `law` are proved once, from what is promised here,
    // and not at each of the eleven.
    fn dispatch<K: Stamp>(&mut self, call: Call<K>) -> Answer
        ensures answer { Sound S.Reading self.old → answer_view result ≡ answer (view S.Reading self.old) (call_view K.Stamp.key_of call) }
        ensures after { Sound S.Reading self.old → view S.Reading self.new ≡ after (view S.Reading self.old) (call_view K.Stamp.key_of call) }
        ensures store { S.Reading.sound self.old.store → S.Reading.sound self.new.store }
    {
        match call {
            Call::Begin { session } => self.begin(session).map(|()| Reply::Done),
            Call::Fetch { session, slot } => self.fetch(session, slot).map(Reply::Got),
            Call::Read { session, slot } => self.read(session, slot).map(Reply::Got),
            Call::Write {
                session,
                slot,
                rule,
            } => self.write(session, slot, rule).map(|()| Reply::Done),
            Call::Drop { session, slot } => self.drop(session, slot).map(|()| Reply::Done),
            Call::Forward { session, stamp } => self.forward(session, stamp).map(Reply::Queued),
            Call::Commit { session } => self.commit(session).map(Reply::Numbered),
            Call::Abort { session } => self.abort(session).map(|()| Reply::Done),
            Call::Learn { session } => self.learn(session).map(Reply::Learnt),
            Call::Receipt { session, number } => self
                .receipt(session, number)
                .map(|()| Reply::Done),
            Call::Truncate { stamp } => Ok(Reply::Removed(self.truncate(stamp))),
        }
    }
}
