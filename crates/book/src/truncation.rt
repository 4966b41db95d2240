// Striking a change out, and forgetting committed ones.
ghost use Rattle.std.specs.Prelude.{◌≡◌};
ghost use Rattle.queue.specs.Entries.{key_view};
ghost use Rattle.calls.specs.Words.{abort, truncate, done, removed};
ghost use Rattle.calls.specs.Calls.{answer, after};
ghost use Rattle.book.specs.Views.{view, answered};

use crate::Book;
use ledger::require;
use refusal::Refusal;
use session::Phase;
use stamp::Stamp;
use store::Storing;

impl<S: Storing> Book<S> {
    // Gives up the change.
    pub fn abort(&mut self, session: u32) -> Result<(), Refusal>
        ensures answer { answered (λ _. done) result ≡ answer (view S.Reading self.old) (abort session) }
        ensures after { view S.Reading self.new ≡ after (view S.Reading self.old) (abort session) }
        ensures store { self.new.store ≡ self.old.store }
    {
        let record = self.ledger.record(session)?;
        require(
            record.phase() != Phase::Idle,
            Refusal::WrongPhase { session },
        )?;
        self.ledger.sessions.abort(session);
        self.ledger.queue.strike(session);
        Ok(())
    }

    // Forgets committed changes up to a stamp.
    pub fn truncate<K: Stamp>(&mut self, stamp: K) -> u32
        ensures answer { removed result ≡ answer (view S.Reading self.old) (truncate (key_view (K.Stamp.key_of stamp))) }
        ensures after { view S.Reading self.new ≡ after (view S.Reading self.old) (truncate (key_view (K.Stamp.key_of stamp))) }
        ensures store { self.new.store ≡ self.old.store }
    {
        let key = stamp.key();
        let threshold = self.ledger.threshold.map_or(key, |old| old.max(key));
        self.ledger.threshold = Some(threshold);
        self.ledger.queue.truncate(threshold)
    }
}
