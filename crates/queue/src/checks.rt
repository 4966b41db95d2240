// What a change that is put forward is tried against: the first entry that stands in its way, found by its place.
ghost use Rattle.std.specs.Prelude.{◌≡◌, ◌≤◌, Bool, length, nat_le};
ghost use Rattle.std.specs.Fn.{FnReturnsAt};
ghost use Rattle.calls.specs.State.{Queued};
ghost use Rattle.queue.specs.declared.entry.Change.{Change};
ghost use Rattle.slots.specs.Meaning.{has};
ghost use Rattle.law.specs.Changes.{same_key};
ghost use Rattle.calls.specs.Sets.{first_place};
ghost use Rattle.calls.specs.Checks.{owed};
ghost use Rattle.queue.specs.Entries.{key_view, change_view, meets_later, meets_pending};
ghost use Rattle.queue.specs.Views.{queue_view};

use crate::{Change, Queue, ROOM};
use stamp::Key;

impl Queue {
    pub fn len(&self) -> u32
        ensures value { result ≡ length (queue_view self.now) }
        ensures bound { result ≤ 32 }
    {
        self.changes.len() as u32
    }

    pub fn is_full(&self) -> bool
        ensures { result ≡ nat_le 32 (length (queue_view self.now)) }
    {
        self.changes.len() >= ROOM
    }

    // The place of the change with this key.
    pub fn taken(&self, key: Key) -> Option<u32>
        ensures { result ≡ first_place (λ q. same_key q.key (key_view key)) (queue_view self.now) }
    {
        self.first_place(|entry| entry.has_key(key))
    }

    pub fn later_clash(&self, count: u32, change: &Change) -> Option<u32>
        ensures { result ≡ first_place (meets_later count (key_view change.now.key) (has change.now.read) (has change.now.written)) (queue_view self.now) }
    {
        self.first_place(|entry| entry.clashes_later(count, change))
    }

    pub fn pending_clash(&self, count: u32, change: &Change) -> Option<u32>
        ensures { result ≡ first_place (meets_pending count (key_view change.now.key) (has change.now.read)) (queue_view self.now) }
    {
        self.first_place(|entry| entry.clashes_pending(count, change))
    }

    // The place of the first entry that passes the test, whatever the test means by what an entry means.
    fn first_place<F: Fn(&Change) -> bool>(&self, test: F) -> Option<u32>
        requires { F.IsAlwaysCallable test }
        ensures { (means : Queued → Bool) → ((entry : Change) (passes : Bool) → FnReturnsAt F.Fn test entry passes → passes ≡ means (change_view entry)) → result ≡ first_place means (queue_view self.now) }
    {
        self.changes.iter().position(test).map(|place| place as u32)
    }

    // How many pending changes write.
    #[tactic(auto, using(crate::proofs::Filtered::owed_counted))]
    pub fn owed(&self, count: u32) -> u32
        ensures value { result ≡ owed count (queue_view self.now) }
        ensures bound { result ≤ 32 }
    {
        self.changes
            .iter()
            .filter(|entry| entry.owes(count))
            .count() as u32
    }
}
