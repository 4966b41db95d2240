// Taking a copy of a slot.
ghost use Rattle.std.specs.Prelude.{◌≡◌};
ghost use Rattle.calls.specs.Words.{fetch, rule};
ghost use Rattle.calls.specs.Calls.{answer, after};
ghost use Rattle.book.specs.Views.{view, answered};

use crate::Book;
use ledger::{check_slot, require};
use refusal::Refusal;
use rule::Rule;
use session::Phase;
use store::Storing;

impl<S: Storing> Book<S> {
    // Takes a copy of a slot.
    pub fn fetch(&mut self, session: u32, slot: u32) -> Result<Rule, Refusal>
        ensures answer { S.Reading.sound self.old.store → answered rule result ≡ answer (view S.Reading self.old) (fetch session slot) }
        ensures after { S.Reading.sound self.old.store → view S.Reading self.new ≡ after (view S.Reading self.old) (fetch session slot) }
        ensures store { S.Reading.sound self.old.store → S.Reading.sound self.new.store }
    {
        let record = self.ledger.record(session)?;
        check_slot(&self.store, slot)?;
        require(
            record.phase() != Phase::Pending,
            Refusal::WrongPhase { session },
        )?;
        require(!record.holds(slot), Refusal::AlreadyHeld { slot })?;
        let rule = self.store.get(slot)?;
        self.ledger.sessions.fetch(session, slot, rule);
        Ok(rule)
    }
}
