// How a ledger is made.
ghost use Rattle.std.specs.Prelude.{◌≡◌, [], IfOk, None};
ghost use Rattle.session.specs.Views.{sessions_of};
ghost use Rattle.queue.specs.Views.{queue_view};
ghost use Rattle.calls.specs.State.{fresh};

use crate::Ledger;
use queue::Queue;
use session::Sessions;
use std::alloc::{AllocError, Global};

impl Ledger {
    // The ledger of a book in which nothing has been done.
    pub fn new(heap: Global) -> Result<Ledger, AllocError>
        ensures { IfOk result (λ g. (sessions_of g.sessions.records ≡ (λ _. fresh)) × (queue_view g.queue ≡ []) × (g.threshold ≡ None) × (g.number ≡ 0)) }
    {
        Ok(Ledger {
            sessions: Sessions::new(),
            queue: Queue::new(heap)?,
            threshold: None,
            number: 0,
        })
    }
}
