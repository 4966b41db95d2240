// The law of a list of entries that several sessions change at once, in the words of what was asked and answered.
//
// `specs/` says what it is to take changes one at a time, what the account of a history is, and what the law asks of it.
// Nothing here knows how a book keeps the law. The function below names the theorem on which the order of stamps rests.
#![tactic(auto)]

ghost use Rattle.law.specs.Orders.{ReorderingStands};

// Every order in which clashing changes stand as a relation has them explains what one such order explains.
// Proved for every kind of rule and entry; stated here for numbers as rules and numbers or nothing as entries.
#[tactic(auto, using(crate::proofs::Reorder::reordering_law))]
pub fn reordering_stands()
    ensures { ReorderingStands }
{}
