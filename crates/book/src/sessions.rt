// The calls that touch one session alone.
ghost use Rattle.std.specs.Prelude.{◌≡◌};
ghost use Rattle.calls.specs.Words.{begin, read, write, drop, learn, receipt, done, rule};
ghost use Rattle.calls.specs.Calls.{answer, after};
ghost use Rattle.book.specs.Views.{view, answered, learnt_view};

use crate::Book;
use ledger::require;
use protocol::Learnt;
use refusal::Refusal;
use rule::Rule;
use session::Phase;
use store::Storing;

impl<S: Storing> Book<S> {
    // Starts a change.
    pub fn begin(&mut self, session: u32) -> Result<(), Refusal>
        ensures answer { answered (λ _. done) result ≡ answer (view S.Reading self.old) (begin session) }
        ensures after { view S.Reading self.new ≡ after (view S.Reading self.old) (begin session) }
        ensures store { self.new.store ≡ self.old.store }
    {
        let record = self.ledger.record(session)?;
        require(
            record.phase() == Phase::Idle,
            Refusal::WrongPhase { session },
        )?;
        self.ledger.sessions.begin(session);
        Ok(())
    }

    // Shows the rule that the change sees in a slot held.
    pub fn read(&mut self, session: u32, slot: u32) -> Result<Rule, Refusal>
        ensures answer { answered rule result ≡ answer (view S.Reading self.old) (read session slot) }
        ensures after { view S.Reading self.new ≡ after (view S.Reading self.old) (read session slot) }
        ensures store { self.new.store ≡ self.old.store }
    {
        let rule = self.ledger.check_read(&self.store, session, slot)?;
        self.ledger.sessions.note_read(session, slot);
        Ok(rule)
    }

    // Stages a rule for a slot that the change has read.
    pub fn write(&mut self, session: u32, slot: u32, rule: Rule) -> Result<(), Refusal>
        ensures answer { answered (λ _. done) result ≡ answer (view S.Reading self.old) (write session slot rule) }
        ensures after { view S.Reading self.new ≡ after (view S.Reading self.old) (write session slot rule) }
        ensures store { self.new.store ≡ self.old.store }
    {
        self.ledger.check_write(&self.store, session, slot)?;
        self.ledger.sessions.write(session, slot, rule);
        Ok(())
    }

    // Gives up the copy of a slot.
    pub fn drop(&mut self, session: u32, slot: u32) -> Result<(), Refusal>
        ensures answer { answered (λ _. done) result ≡ answer (view S.Reading self.old) (drop session slot) }
        ensures after { view S.Reading self.new ≡ after (view S.Reading self.old) (drop session slot) }
        ensures store { self.new.store ≡ self.old.store }
    {
        self.ledger.check_drop(&self.store, session, slot)?;
        self.ledger.sessions.release(session, slot);
        Ok(())
    }

    // Tells which copies are out of date, and gives them up.
    pub fn learn(&mut self, session: u32) -> Result<Learnt, Refusal>
        ensures answer { answered learnt_view result ≡ answer (view S.Reading self.old) (learn session) }
        ensures after { view S.Reading self.new ≡ after (view S.Reading self.old) (learn session) }
        ensures store { self.new.store ≡ self.old.store }
    {
        let record = self.ledger.record(session)?;
        let slots = record.noticed();
        let count = self.store.count();
        let number = self.ledger.number;
        let ended = self.ledger.sessions.learn(session, count, number);
        Ok(Learnt {
            number,
            slots,
            ended,
        })
    }

    // Confirms what was learnt, up to a number.
    pub fn receipt(&mut self, session: u32, number: u32) -> Result<(), Refusal>
        ensures answer { answered (λ _. done) result ≡ answer (view S.Reading self.old) (receipt session number) }
        ensures after { view S.Reading self.new ≡ after (view S.Reading self.old) (receipt session number) }
        ensures store { self.new.store ≡ self.old.store }
    {
        let record = self.ledger.record(session)?;
        require(
            number <= record.learnt(),
            Refusal::ReceiptTooHigh { session },
        )?;
        self.ledger.sessions.receipt(session, number);
        Ok(())
    }
}
