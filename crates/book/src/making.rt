// How a book is made.
ghost use Rattle.std.specs.Prelude.{◌≡◌, IfOk};
ghost use Rattle.calls.specs.State.{just_made};
ghost use Rattle.book.specs.Views.{view};

use crate::Book;
use ledger::Ledger;
use std::alloc::{AllocError, Global};
use store::Storing;

impl<S: Storing + Drop> Book<S> {
    // A book over a store, in which nothing has been done.
    pub fn new(store: S, heap: Global) -> Result<Book<S>, AllocError>
        ensures { IfOk result (λ b. (b.store ≡ store) × (view S.Reading b ≡ just_made (S.Reading.entries store))) }
    {
        let ledger = Ledger::new(heap)?;
        Ok(Book { store, ledger })
    }

    // The store that the book holds.
    pub fn store(&self) -> &S
        ensures { result.now ≡ self.now.store }
    {
        &self.store
    }
}
