// One accepted change, and what is asked of it.
ghost use Rattle.std.specs.Prelude.{◌≡◌};
ghost use Rattle.slots.specs.Meaning.{has};
ghost use Rattle.law.specs.Changes.{same_key};
ghost use Rattle.calls.specs.Effects.{own_pending, finished, stays};
ghost use Rattle.queue.specs.Entries.{key_view, change_view, meets_later, meets_pending, owing};

use slots::SlotSet;
use stamp::Key;
use tables::{any_below, meets_below};

// How far an accepted change is.
#[derive(Clone, Copy, PartialEq, Eq)]
pub enum Stage {
    Pending,
    Committed,
}

#[derive(Clone, Copy)]
pub struct Change {
    pub key: Key,
    pub session: u32,
    pub read: SlotSet,
    pub written: SlotSet,
    pub stage: Stage,
}

impl Change {
    fn is_pending(&self) -> bool
        ensures { result ≡ (change_view self.now).pending }
    {
        self.stage == Stage::Pending
    }

    pub(crate) fn has_key(&self, key: Key) -> bool
        ensures { result ≡ same_key (change_view self.now).key (key_view key) }
    {
        self.key == key
    }

    // It has a later stamp than the change, and writes a slot that the change read, or read one that it writes.
    pub(crate) fn clashes_later(&self, count: u32, change: &Change) -> bool
        ensures { result ≡ meets_later count (key_view change.now.key) (has change.now.read) (has change.now.written) (change_view self.now) }
    {
        change.key.before(self.key)
            && (meets_below(count, self.written, change.read)
                || meets_below(count, self.read, change.written))
    }

    // It is pending with an earlier stamp than the change, and writes a slot that the change read.
    pub(crate) fn clashes_pending(&self, count: u32, change: &Change) -> bool
        ensures { result ≡ meets_pending count (key_view change.now.key) (has change.now.read) (change_view self.now) }
    {
        self.is_pending()
            && (self.key.before(change.key) && meets_below(count, self.written, change.read))
    }

    // It is pending and writes, so it will want a notice number.
    pub(crate) fn owes(&self, count: u32) -> bool
        ensures { result ≡ owing count (change_view self.now) }
    {
        self.is_pending() && any_below(count, self.written)
    }

    // It is the pending change of a session.
    pub(crate) fn is_own(&self, session: u32) -> bool
        ensures { result ≡ own_pending session (change_view self.now) }
    {
        self.is_pending() && self.session == session
    }

    // Truncation leaves it.
    pub(crate) fn stays(&self, key: Key) -> bool
        ensures { result ≡ stays (key_view key) (change_view self.now) }
    {
        self.is_pending() || key.before(self.key)
    }

    // As a commit of a session leaves it.
    pub(crate) fn finished(self, session: u32) -> Change
        ensures { change_view result ≡ finished session (change_view self) }
    {
        if self.is_own(session) {
            Change {
                stage: Stage::Committed,
                ..self
            }
        } else {
            self
        }
    }
}
