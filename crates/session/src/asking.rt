// What is asked of a record.
ghost use Rattle.std.specs.Prelude.{◌≡◌};
ghost use Rattle.slots.specs.Meaning.{has};
ghost use Rattle.tables.specs.Meaning.{shared};
ghost use Rattle.calls.specs.Sets.{lowest};
ghost use Rattle.calls.specs.State.{held, noticed, written};
ghost use Rattle.calls.specs.Calls.{shown};
ghost use Rattle.session.specs.Views.{phase_view, view};

use crate::{Phase, Record};
use rule::Rule;
use slots::SlotSet;
use tables::lowest_below;

impl Record {
    pub fn phase(&self) -> Phase
        ensures { phase_view result ≡ (view self.now).work.phase }
    {
        self.phase
    }

    pub fn holds(&self, slot: u32) -> bool
        ensures { result ≡ held (view self.now).desk slot }
    {
        self.copies.get(slot).is_some()
    }

    pub fn has_read(&self, slot: u32) -> bool
        ensures { result ≡ (view self.now).work.read slot }
    {
        self.slots_read().contains(slot)
    }

    // What a read shows: the staged rule, or else the copy.
    pub fn shown(&self, slot: u32) -> Option<Rule>
        ensures { result ≡ shown (view self.now) slot }
    {
        self.staged(slot).or(self.copies.get(slot))
    }

    pub fn learnt(&self) -> u32
        ensures { result ≡ (view self.now).desk.learnt }
    {
        self.learnt
    }

    // The slots with a notice.
    pub fn noticed(&self) -> SlotSet
        ensures { has result ≡ noticed (view self.now).desk }
    {
        self.notices.slots()
    }

    pub fn slots_read(&self) -> SlotSet
        ensures { has result ≡ (view self.now).work.read }
    {
        self.read
    }

    pub fn slots_written(&self) -> SlotSet
        ensures { has result ≡ written (view self.now).work }
    {
        self.staged.slots()
    }

    // The rule that the change wrote into a slot.
    pub fn staged(&self, slot: u32) -> Option<Rule>
        ensures { result ≡ (view self.now).work.staged slot }
    {
        self.staged.get(slot)
    }

    // The lowest slot below the count that the change read and that has a notice.
    pub fn stale(&self, count: u32) -> Option<u32>
        ensures { result ≡ lowest count (shared (view self.now).work.read (noticed (view self.now).desk)) }
    {
        lowest_below(count, self.slots_read().intersection(self.noticed()))
    }
}
