// The eleven calls of the book and its answers, as values.
//
// A call names its session, and what it asks of it; only a truncation has no session. An answer is what the call gives, or the refusal.
#![tactic(auto)]

mod texts;

use refusal::Refusal;
use rule::Rule;
use slots::SlotSet;

#[derive(Clone, Copy, Debug, PartialEq, Eq)]
pub enum Call<S> {
    // starts a change
    Begin { session: u32 },
    // takes a copy of a slot
    Fetch { session: u32, slot: u32 },
    // shows what the change reads in a slot
    Read { session: u32, slot: u32 },
    // stages a rule for a slot
    Write { session: u32, slot: u32, rule: Rule },
    // gives up the copy of a slot
    Drop { session: u32, slot: u32 },
    // puts the change forward under a stamp
    Forward { session: u32, stamp: S },
    Commit { session: u32 },
    Abort { session: u32 },
    // hears which copies are out of date
    Learn { session: u32 },
    // confirms what was learnt, up to a number
    Receipt { session: u32, number: u32 },
    // forgets committed changes up to a stamp
    Truncate { stamp: S },
}

// What a session learns.
#[derive(Clone, Copy, PartialEq, Eq)]
pub struct Learnt {
    // the number learnt
    pub number: u32,
    // the slots with notices
    pub slots: SlotSet,
    // whether a change ended
    pub ended: bool,
}

// What a call that is done gives.
#[derive(Clone, Copy, PartialEq, Eq)]
pub enum Reply {
    // no value
    Done,
    // the rule of a slot
    Got(Rule),
    // the place in the queue
    Queued(u32),
    // the notice number
    Numbered(u32),
    Learnt(Learnt),
    // how many entries left the queue
    Removed(u32),
}

// What a call is answered.
pub type Answer = Result<Reply, Refusal>;
