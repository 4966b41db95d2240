// Putting a change forward: its checks in their order, and its place in the queue.
ghost use Rattle.std.specs.Prelude.{◌≡◌};
ghost use Rattle.queue.specs.Entries.{key_view};
ghost use Rattle.calls.specs.Words.{forward, place};
ghost use Rattle.calls.specs.Calls.{answer, after};
ghost use Rattle.book.specs.Views.{view, answered};

use crate::Book;
use refusal::Refusal;
use stamp::Stamp;
use store::Storing;

impl<S: Storing> Book<S> {
    // Puts the change forward under a stamp.
    pub fn forward<K: Stamp>(&mut self, session: u32, stamp: K) -> Result<u32, Refusal>
        ensures answer { answered place result ≡ answer (view S.Reading self.old) (forward session (key_view (K.Stamp.key_of stamp))) }
        ensures after { view S.Reading self.new ≡ after (view S.Reading self.old) (forward session (key_view (K.Stamp.key_of stamp))) }
        ensures store { self.new.store ≡ self.old.store }
    {
        let key = stamp.key();
        let change = self.ledger.check_forward(&self.store, session, key)?;
        let place = self.ledger.queue.len();
        self.ledger.queue.push(change);
        self.ledger.sessions.put_forward(session);
        Ok(place)
    }
}
