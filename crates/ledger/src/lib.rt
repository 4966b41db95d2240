// What a book keeps beside its store, and why a call is turned away.
//
// With the entries of a store it makes the state of the definitions of the calls. For each call whose checks look at nothing else, a
// function here makes the checks, and fails with the cause of the first that turns the call away.
#![tactic(auto)]

mod checks;
mod forwarding;
mod making;

pub use checks::{check_slot, require};
use queue::Queue;
use session::Sessions;
use stamp::Key;

#[derive(Drop)]
pub struct Ledger {
    pub sessions: Sessions,
    pub queue: Queue,
    // absent until the first truncation
    pub threshold: Option<Key>,
    // the notice number
    pub number: u32,
}
