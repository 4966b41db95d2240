// How the queue is made and changed.
ghost use Rattle.std.specs.Prelude.{◌≡◌, ◌-◌, not, [], map, length, IfOk, filter};
ghost use Rattle.calls.specs.Effects.{own_pending, finished, stays};
ghost use Rattle.queue.specs.Entries.{key_view, change_view};
ghost use Rattle.queue.specs.Views.{queue_view, joined};

use crate::{Change, Queue, ROOM};
use stamp::Key;
use std::alloc::{AllocError, Global};

impl Queue {
    pub fn new(heap: Global) -> Result<Queue, AllocError>
        ensures { IfOk result (λ q. queue_view q ≡ []) }
    {
        Ok(Queue {
            changes: Vec::with_capacity(heap, ROOM)?,
        })
    }

    // Joins a change at the end, if there is room.
    pub fn push(&mut self, change: Change)
        ensures { queue_view self.new ≡ joined (queue_view self.old) (change_view change) }
    {
        if self.changes.len() < ROOM {
            self.changes.push_reserved(change);
        }
    }

    // The pending change of a session is committed.
    pub fn finish(&mut self, session: u32)
        ensures { queue_view self.new ≡ map (finished session) (queue_view self.old) }
    {
        // of what a loop over `&mut self.changes` writes, a proof knows nothing
        for change in self.changes.iter_mut() {
            *change = change.finished(session);
        }
    }

    // The pending change of a session is taken out.
    pub fn strike(&mut self, session: u32)
        ensures { queue_view self.new ≡ filter (λ q. not (own_pending session q)) (queue_view self.old) }
    {
        self.changes.retain(|change| !change.is_own(session));
    }

    // Committed changes up to a key are taken out: how many.
    pub fn truncate(&mut self, key: Key) -> u32
        ensures after { queue_view self.new ≡ filter (stays (key_view key)) (queue_view self.old) }
        ensures removed { result ≡ length (queue_view self.old) - length (queue_view self.new) }
    {
        let before = self.changes.len();
        self.changes.retain(|change| change.stays(key));
        (before - self.changes.len()) as u32
    }
}
