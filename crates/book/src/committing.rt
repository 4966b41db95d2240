// Committing a change: its rules go to the store, and the other holders are told.
ghost use Rattle.std.specs.Prelude.{◌≡◌, ◌<◌, IfOk};
ghost use Rattle.std.specs.Result.{result_err};
ghost use Rattle.session.specs.Views.{sessions_of};
ghost use Rattle.session.specs.Views as seen;
ghost use Rattle.ledger.specs.Views.{state};
ghost use Rattle.calls.specs.Words.{commit, number};
ghost use Rattle.calls.specs.Checks.{first_cause, checks};
ghost use Rattle.calls.specs.Calls.{answer, after};
ghost use Rattle.book.specs.Runs.{Sound};
ghost use Rattle.book.specs.Views.{view, answered};

use crate::Book;
use ledger::{Ledger, require};
use refusal::Refusal;
use session::{Phase, Record};
use staging::{check_staged, put_staged};
use store::{Reading, Storing};
use tables::any_below;

// The record of a session whose change may be committed. Every slot that it wrote is tried before anything is put, so a commit is done whole or not
// at all.
fn check_commit<'a, S: Reading>(
    store: &mut S,
    ledger: &'a Ledger,
    session: u32,
) -> Result<&'a Record, Refusal>
    ensures value { S.Reading.sound store.old → result_err result ≡ first_cause (checks (state (S.Reading.entries store.old) ledger.now) (commit session)) }
    ensures passed { IfOk result (λ own. (session < 8) × (seen.view own.now ≡ sessions_of ledger.now.sessions.records session)) }
    ensures same { S.Reading.entries store.new ≡ S.Reading.entries store.old }
    ensures sound { S.Reading.sound store.old → S.Reading.sound store.new }
{
    let own = ledger.record(session)?;
    require(
        own.phase() == Phase::Pending,
        Refusal::WrongPhase { session },
    )?;
    check_staged(store, own)?;
    Ok(own)
}

impl<S: Storing> Book<S> {
    // Commits the pending change.
    pub fn commit(&mut self, session: u32) -> Result<u32, Refusal>
        ensures answer { Sound S.Reading self.old → answered number result ≡ answer (view S.Reading self.old) (commit session) }
        ensures after { Sound S.Reading self.old → view S.Reading self.new ≡ after (view S.Reading self.old) (commit session) }
        ensures store { S.Reading.sound self.old.store → S.Reading.sound self.new.store }
    {
        let Book { store, ledger } = self;
        let own = check_commit(store, ledger, session)?;
        let slots = own.slots_written();
        // a number is left for a change that writes: it was accepted only with one left
        let number = if any_below(store.count(), slots) {
            ledger.number.saturating_add(1)
        } else {
            ledger.number
        };
        put_staged(store, own);
        ledger.sessions.commit(session, slots, number);
        ledger.queue.finish(session);
        ledger.number = number;
        Ok(number)
    }
}
