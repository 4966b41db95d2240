// Whether a change may be put forward, and the queue entry that it becomes.
ghost use Rattle.std.specs.Prelude.{◌≡◌, ◌+◌, ◌<◌, ◌&&◌, length, IfOk, OnOk, ◌==◌};
ghost use Rattle.std.specs.Option.{option_map};
ghost use Rattle.std.specs.Result.{result_err};
ghost use Rattle.slots.specs.Meaning.{has};
ghost use Rattle.session.specs.Views.{sessions_of};
ghost use Rattle.session.specs.Views as seen;
ghost use Rattle.queue.specs.Entries.{key_view, change_view};
ghost use Rattle.queue.specs.Views.{queue_view};
ghost use Rattle.calls.specs.Sets.{any_below, first_place};
ghost use Rattle.calls.specs.State.{Work};
ghost use Rattle.calls.specs.Words.{forward};
ghost use Rattle.calls.specs.Checks.{first_cause, checks, not_after, later_clash, pending_clash, owed};
ghost use Rattle.calls.specs.Effects.{entry_of};
ghost use Rattle.ledger.specs.Checks.{clash_checks, stamp_checks};
ghost use Rattle.ledger.specs.Views.{state};

use crate::{Ledger, require};
use queue::{Change, Stage};
use refusal::Refusal;
use session::{Phase, Record};
use slots::SlotSet;
use stamp::Key;
use store::Reading;
use tables::any_below;

impl Ledger {
    // The queue entry of a session's change; what is no session has none, and its entry has no slots.
    pub fn change_of(&self, session: u32, key: Key) -> Change
        ensures { change_view result ≡ entry_of session (key_view key) (sessions_of self.now.sessions.records session).work }
    {
        let (read, written) = match self.sessions.record(session) {
            Some(record) => (record.slots_read(), record.slots_written()),
            None => (SlotSet::new(), SlotSet::new()),
        };
        Change {
            key,
            session,
            read,
            written,
            stage: Stage::Pending,
        }
    }

    // The queue entry of a change that may be put forward.
    pub fn check_forward<S: Reading>(
        &self,
        store: &S,
        session: u32,
        key: Key,
    ) -> Result<Change, Refusal>
        ensures value { result_err result ≡ first_cause (checks (state (S.Reading.entries store.now) self.now) (forward session (key_view key))) }
        ensures passed { OnOk result ((session < 8) × (length (queue_view self.now.queue) < 32)) }
        ensures entry { IfOk result (λ change. change_view change ≡ entry_of session (key_view key) (sessions_of self.now.sessions.records session).work) }
    {
        let own = self.record(session)?;
        require(own.phase() == Phase::Open, Refusal::WrongPhase { session })?;
        self.check_stamp(store, own, session, key)
    }

    // The checks of the stamp, and then those against other changes.
    fn check_stamp<S: Reading>(
        &self,
        store: &S,
        own: &Record,
        session: u32,
        key: Key,
    ) -> Result<Change, Refusal>
        ensures value { seen.view own.now ≡ sessions_of self.now.sessions.records session → result_err result ≡ first_cause (stamp_checks (state (S.Reading.entries store.now) self.now) session (key_view key)) }
        ensures passed { OnOk result (length (queue_view self.now.queue) < 32) }
        ensures entry { IfOk result (λ change. change_view change ≡ entry_of session (key_view key) (sessions_of self.now.sessions.records session).work) }
    {
        require(!self.too_early(key), Refusal::StampTooEarly)?;
        if let Some(entry) = self.queue.taken(key) {
            return Err(Refusal::StampTaken { entry });
        }
        require(!self.queue.is_full(), Refusal::QueueFull)?;
        self.check_clash(store, own, session, key)
    }

    // The checks against other changes.
    fn check_clash<S: Reading>(
        &self,
        store: &S,
        own: &Record,
        session: u32,
        key: Key,
    ) -> Result<Change, Refusal>
        ensures value { seen.view own.now ≡ sessions_of self.now.sessions.records session → result_err result ≡ first_cause (clash_checks (state (S.Reading.entries store.now) self.now) session (key_view key)) }
        ensures entry { IfOk result (λ change. change_view change ≡ entry_of session (key_view key) (sessions_of self.now.sessions.records session).work) }
    {
        let change = self.change_of(session, key);
        if let Some(entry) = self.later_clash(store, &change) {
            return Err(Refusal::LaterConflict { entry });
        }
        if let Some(entry) = self.pending_clash(store, &change) {
            return Err(Refusal::PendingConflict { entry });
        }
        let count = store.count();
        if let Some(slot) = own.stale(count) {
            return Err(Refusal::Stale { slot });
        }
        require(
            !self.exhausted(count, change.written),
            Refusal::NumbersExhausted,
        )?;
        Ok(change)
    }

    // The place of the first entry with a later stamp that clashes, for the work that the change is the queue entry of.
    #[tactic(auto, using(crate::proofs::Entries::later_same))]
    fn later_clash<S: Reading>(&self, store: &S, change: &Change) -> Option<u32>
        ensures { (work : Work) → change_view change.now ≡ entry_of change.now.session (key_view change.now.key) work → result ≡ first_place (later_clash (length (S.Reading.entries store.now)) (key_view change.now.key) work) (queue_view self.now.queue) }
    {
        self.queue.later_clash(store.count(), change)
    }

    // The place of the first pending entry with an earlier stamp that clashes, for such a work.
    #[tactic(auto, using(crate::proofs::Entries::pending_same))]
    fn pending_clash<S: Reading>(&self, store: &S, change: &Change) -> Option<u32>
        ensures { (work : Work) → change_view change.now ≡ entry_of change.now.session (key_view change.now.key) work → result ≡ first_place (pending_clash (length (S.Reading.entries store.now)) (key_view change.now.key) work) (queue_view self.now.queue) }
    {
        self.queue.pending_clash(store.count(), change)
    }

    // Whether a key is not after the threshold.
    fn too_early(&self, key: Key) -> bool
        ensures { result ≡ not_after (option_map key_view self.now.threshold) (key_view key) }
    {
        self.threshold
            .is_some_and(|threshold| !threshold.before(key))
    }

    // Whether a change that writes these slots would want a notice number past the last.
    fn exhausted(&self, count: u32, written: SlotSet) -> bool
        ensures { result ≡ (any_below count (has written) && self.now.number + owed count (queue_view self.now.queue) == 4294967295) }
    {
        any_below(count, written)
            && u64::from(self.number) + u64::from(self.queue.owed(count)) == u64::from(u32::MAX)
    }
}
