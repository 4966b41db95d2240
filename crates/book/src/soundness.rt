// Why every book that calls lead to is sound, so that the contract of a commit holds of it.
ghost use Rattle.book.specs.Runs.{Soundness};

use store::Storing;

// A book just made over a sound store is sound. A call that leaves a sound store sound, and the book as its definition says, leaves a sound book
// sound; each of the eleven promises that.
pub fn soundness_stands<S: Storing>()
    ensures { Soundness S.Reading }
{}
