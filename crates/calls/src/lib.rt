// The eleven calls of a rule book as definitions, and the law of every run of them.
//
// `specs/` says what a book keeps, what each call checks, does and answers, and how a history of calls with their answers
// is read by the law. Here is no running code: the functions below name the theorems, so that none can go missing.
#![tactic(auto)]

ghost use Rattle.calls.specs.Histories.{LawOfRuns, LawOfReached, CommitsOfReached, BoundsOfReached, OrdersOfReached};

// From a book just made over any list of entries, every list of calls, answered as defined, keeps the law.
pub fn law_stands()
    ensures { LawOfRuns }
{}

// The same at each moment: of every state that is reached.
#[tactic(auto, using(crate::proofs::Steps::law_of_reached))]
pub fn law_stands_at_each_moment()
    ensures { LawOfReached }
{}

// No commit is refused by its store.
#[tactic(auto, using(crate::proofs::Steps::commits_of_reached))]
pub fn commits_stand()
    ensures { CommitsOfReached }
{}

// Notice numbers fit 32 bits, and the queue fits 32 places.
#[tactic(auto, using(crate::proofs::Bounds::bounds_of_reached))]
pub fn bounds_stand()
    ensures { BoundsOfReached }
{}

// Every order of the committed changes in which clashing ones follow their stamps explains the entries.
#[tactic(auto, using(crate::proofs::Steps::orders_of_reached))]
pub fn orders_stand()
    ensures { OrdersOfReached }
{}
