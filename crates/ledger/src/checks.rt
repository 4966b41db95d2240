// The checks of the calls on a slot. A function here fails with the cause of the first check that turns the call away.
ghost use Rattle.std.specs.Prelude.{◌≡◌, ◌<◌, length, not, nat_le, Some, IfOk, OnOk};
ghost use Rattle.std.specs.Result.{result_err};
ghost use Rattle.refusal.specs.declared.Refusal.TheVariants.{SlotOutsideBook};
ghost use Rattle.session.specs.Views.{sessions_of};
ghost use Rattle.session.specs.Views as seen;
ghost use Rattle.calls.specs.Words.{read, drop};
ghost use Rattle.calls.specs.Calls.{shown};
ghost use Rattle.calls.specs.Checks.{when, no_session, first_cause, checks};
ghost use Rattle.ledger.specs.Checks.{write_checks};
ghost use Rattle.ledger.specs.Views.{state};

use crate::Ledger;
use refusal::Refusal;
use rule::Rule;
use session::{Phase, Record};
use store::Reading;

// One check: the test holds, or the call is turned away.
pub fn require(test: bool, cause: Refusal) -> Result<(), Refusal>
    ensures { result_err result ≡ when (not test) cause }
{
    if test { Ok(()) } else { Err(cause) }
}

// Whether the book has such a slot.
pub fn check_slot<S: Reading>(store: &S, slot: u32) -> Result<(), Refusal>
    ensures value { result_err result ≡ when (nat_le (length (S.Reading.entries store.now)) slot) (SlotOutsideBook slot) }
    ensures passed { OnOk result (slot < 64) }
{
    require(slot < store.count(), Refusal::SlotOutsideBook { slot })
}

impl Ledger {
    // The record of a session.
    pub fn record(&self, session: u32) -> Result<&Record, Refusal>
        ensures value { result_err result ≡ no_session session }
        ensures passed { IfOk result (λ own. (session < 8) × (seen.view own.now ≡ sessions_of self.now.sessions.records session)) }
    {
        self.sessions
            .record(session)
            .ok_or(Refusal::NoSuchSession { session })
    }

    // The record of a session that has an open change and holds the slot.
    fn open_holder<S: Reading>(
        &self,
        store: &S,
        session: u32,
        slot: u32,
    ) -> Result<&Record, Refusal>
        ensures value { result_err result ≡ first_cause (checks (state (S.Reading.entries store.now) self.now) (read session slot)) }
        ensures passed { IfOk result (λ own. (session < 8) × (slot < 64) × (seen.view own.now ≡ sessions_of self.now.sessions.records session)) }
    {
        let record = self.record(session)?;
        check_slot(store, slot)?;
        require(
            record.phase() == Phase::Open,
            Refusal::WrongPhase { session },
        )?;
        require(record.holds(slot), Refusal::NotHeld { slot })?;
        Ok(record)
    }

    // The rule that a read shows.
    pub fn check_read<S: Reading>(
        &self,
        store: &S,
        session: u32,
        slot: u32,
    ) -> Result<Rule, Refusal>
        ensures value { result_err result ≡ first_cause (checks (state (S.Reading.entries store.now) self.now) (read session slot)) }
        ensures passed { OnOk result ((session < 8) × (slot < 64)) }
        ensures shown { IfOk result (λ rule. shown (sessions_of self.now.sessions.records session) slot ≡ Some rule) }
    {
        let own = self.open_holder(store, session, slot)?;
        // a slot that is held has a copy, so there is a rule to show
        own.shown(slot).ok_or(Refusal::NotHeld { slot })
    }

    pub fn check_write<S: Reading>(&self, store: &S, session: u32, slot: u32) -> Result<(), Refusal>
        ensures value { result_err result ≡ first_cause (write_checks (state (S.Reading.entries store.now) self.now) session slot) }
        ensures passed { OnOk result ((session < 8) × (slot < 64)) }
    {
        let record = self.open_holder(store, session, slot)?;
        require(record.has_read(slot), Refusal::NotRead { slot })
    }

    pub fn check_drop<S: Reading>(&self, store: &S, session: u32, slot: u32) -> Result<(), Refusal>
        ensures value { result_err result ≡ first_cause (checks (state (S.Reading.entries store.now) self.now) (drop session slot)) }
        ensures passed { OnOk result ((session < 8) × (slot < 64)) }
    {
        let own = self.record(session)?;
        check_slot(store, slot)?;
        require(
            own.phase() != Phase::Pending,
            Refusal::WrongPhase { session },
        )?;
        require(own.holds(slot), Refusal::NotHeld { slot })?;
        let is_read = own.phase() == Phase::Open && own.has_read(slot);
        require(!is_read, Refusal::ReadByChange { slot })
    }
}
