// Worked histories of a small rule book, and histories of faulty books that the law shuts out.
//
// Both groups are computed: what each call is answered, and that the law does not hold.
#![tactic(auto)]

ghost use Rattle.histories.specs.Worked.{Worked};
ghost use Rattle.histories.specs.Broken.{Broken};

// What a small book answers in ten histories: nine on four open rules, and the tills that moved. Then the check of a worked block, and
// texts at the edge of what reads as a rule.
#[tactic(auto, unfolding(rule::specs::Making::make, block::specs::Check::check, block::specs::Check::ones_sum, block::specs::Check::words, block::specs::Layout::laid_out, block::specs::Layout::with_check, block::specs::Layout::record_bytes, crate::specs::Book::block_rule))]
pub fn worked_histories_stand()
    ensures { Worked }
{}

// For each of twelve faults a history that a book with that fault gives, and that the law does not hold of.
pub fn broken_histories_fail()
    ensures { Broken }
{}
