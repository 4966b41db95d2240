// The book: eight sessions that share the rules of one store, and the eleven calls that they make.
//
// Each call answers, and leaves behind, what its definition says, for every argument. A call that is refused changes nothing.
// All memory is taken when a book is made.
#![tactic(auto)]

mod applying;
mod committing;
mod fetching;
mod forwarding;
mod making;
mod sessions;
mod soundness;
mod truncation;

use ledger::Ledger;
pub use soundness::soundness_stands;

// That a book is sound (`Sound` in specs/Runs) is a premise of clauses and no ghost field, since a book can be made over a store that is not sound.
#[derive(Drop)]
pub struct Book<S> {
    store: S,
    ledger: Ledger,
}
