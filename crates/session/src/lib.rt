// The record of a session, and the table of the eight.
//
// What a record means is a session of the definitions of the calls, and each method does to it what its definition says.
#![tactic(auto)]

mod asking;
mod table;

ghost use Rattle.std.specs.Prelude.{◌≡◌, Some};
ghost use Rattle.slots.specs.Meaning.{has};
ghost use Rattle.tables.specs.Meaning.{below};
ghost use Rattle.calls.specs.State.{fresh};
ghost use Rattle.calls.specs.Effects.{begun, fetched, having_read, having_written, dropped, put_forward, committed, notified, aborted, having_learnt, receipted, ends_change};
ghost use Rattle.session.specs.Views.{view};

use rule::Rule;
use slots::SlotSet;
pub use table::{SESSIONS, Sessions};
use tables::{SlotMap, meets_below};

// Whether a session has a change, and how far it is.
#[derive(Clone, Copy, PartialEq, Eq)]
pub enum Phase {
    Idle,
    Open,
    // put forward and accepted, not committed yet
    Pending,
}

// No `impl Model`, here and in the table of the eight: both mean functions, and the value of a model has to be data.
#[derive(Clone, Copy)]
pub struct Record {
    phase: Phase,
    // the copies of the slots held
    copies: SlotMap<Rule>,
    // the numbers of the notices
    notices: SlotMap<u32>,
    // the last learnt number
    learnt: u32,
    // the slots that the change read
    read: SlotSet,
    // the rules that the change wrote
    staged: SlotMap<Rule>,
}

impl Record {
    pub(crate) fn new() -> Record
        ensures { view result ≡ fresh }
    {
        Record {
            phase: Phase::Idle,
            copies: SlotMap::new(),
            notices: SlotMap::new(),
            learnt: 0,
            read: SlotSet::new(),
            staged: SlotMap::new(),
        }
    }

    pub(crate) fn begin(&mut self)
        ensures { view self.new ≡ begun (view self.old) }
    {
        self.abort();
        self.phase = Phase::Open;
    }

    pub(crate) fn fetch(&mut self, slot: u32, rule: Rule)
        ensures { view self.new ≡ below 64 slot (fetched slot (Some rule)) (view self.old) }
    {
        self.copies.put(slot, rule);
        self.notices.remove(slot);
    }

    #[tactic(auto, using(tables::proofs::Counts::inserted_is))]
    pub(crate) fn note_read(&mut self, slot: u32)
        ensures { view self.new ≡ below 64 slot (having_read slot) (view self.old) }
    {
        self.read.insert(slot);
    }

    pub(crate) fn write(&mut self, slot: u32, rule: Rule)
        ensures { view self.new ≡ below 64 slot (having_written slot rule) (view self.old) }
    {
        self.staged.put(slot, rule);
    }

    pub(crate) fn release(&mut self, slot: u32)
        ensures { view self.new ≡ below 64 slot (dropped slot) (view self.old) }
    {
        self.copies.remove(slot);
    }

    pub(crate) fn put_forward(&mut self)
        ensures { view self.new ≡ put_forward (view self.old) }
    {
        self.phase = Phase::Pending;
    }

    // The change is gone.
    pub(crate) fn abort(&mut self)
        ensures { view self.new ≡ aborted (view self.old) }
    {
        self.phase = Phase::Idle;
        self.read = SlotSet::new();
        self.staged.clear();
    }

    // What was staged are copies now.
    pub(crate) fn commit(&mut self)
        ensures { view self.new ≡ committed (view self.old) }
    {
        self.copies.overlay(&self.staged);
        self.abort();
    }

    // A notice on each slot of a set that is held.
    pub(crate) fn notify(&mut self, slots: SlotSet, number: u32)
        ensures { view self.new ≡ notified (has slots) number (view self.old) }
    {
        let told = slots.intersection(self.copies.slots());
        self.notices.mark(told, number);
    }

    // Copies with a notice are dropped, and an open change that read one of them ends: is that so?
    pub(crate) fn learn(&mut self, count: u32, number: u32) -> bool
        ensures after { view self.new ≡ having_learnt count number (view self.old) }
        ensures ended { result ≡ ends_change count (view self.old) }
    {
        let noticed = self.notices.slots();
        self.copies.clear_all(noticed);
        self.learnt = number;
        let ends = self.phase == Phase::Open && meets_below(count, self.read, noticed);
        if ends {
            self.abort();
        }
        ends
    }

    // Notices up to a number go.
    pub(crate) fn receipt(&mut self, number: u32)
        ensures { view self.new ≡ receipted number (view self.old) }
    {
        self.notices.forget(number);
    }
}
