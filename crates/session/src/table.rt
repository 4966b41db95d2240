// The table of the eight sessions: one record is lent to be changed inside its own methods.
//
// A change of one session does nothing where there is no such session, or no such slot.
ghost use Rattle.std.specs.Prelude.{◌≡◌, ◌<◌, ◌≤◌, Some, MatchOption};
ghost use Rattle.std.specs.Fn.{FnOnceReturnsAtMut};
ghost use Rattle.slots.specs.Meaning.{has};
ghost use Rattle.tables.specs.Meaning.{below};
ghost use Rattle.law.specs.Accounts.{changed};
ghost use Rattle.calls.specs.State.{fresh};
ghost use Rattle.calls.specs.Effects.{begun, fetched, having_read, having_written, dropped, put_forward, committed, notified, aborted, having_learnt, receipted, ends_change};
ghost use Rattle.session.specs.Views.{view, sessions_of, after_commit, Changed};

use crate::Record;
use rule::Rule;
use slots::SlotSet;

// The numbers below this are the sessions.
pub const SESSIONS: u32 = 8;

#[derive(Clone, Copy)]
pub struct Sessions {
    records: [Record; 8],
}

impl Sessions {
    pub fn new() -> Sessions
        ensures { sessions_of result.records ≡ (λ _. fresh) }
    {
        Sessions {
            records: [Record::new(); 8],
        }
    }

    // The record of a session, if there is such a session.
    pub fn record(&self, session: u32) -> Option<&Record>
        ensures { MatchOption result (8 ≤ session) (λ p. (session < 8) × (view p.now ≡ sessions_of self.now.records session)) }
    {
        self.records.get(session as usize)
    }

    pub fn begin(&mut self, session: u32)
        ensures { sessions_of self.new.records ≡ below 8 session (changed session begun) (sessions_of self.old.records) }
    {
        self.change(session, |record| record.begin());
    }

    pub fn fetch(&mut self, session: u32, slot: u32, rule: Rule)
        ensures { sessions_of self.new.records ≡ below 8 session (below 64 slot (changed session (fetched slot (Some rule)))) (sessions_of self.old.records) }
    {
        self.change(session, |record| record.fetch(slot, rule));
    }

    pub fn note_read(&mut self, session: u32, slot: u32)
        ensures { sessions_of self.new.records ≡ below 8 session (below 64 slot (changed session (having_read slot))) (sessions_of self.old.records) }
    {
        self.change(session, |record| record.note_read(slot));
    }

    pub fn write(&mut self, session: u32, slot: u32, rule: Rule)
        ensures { sessions_of self.new.records ≡ below 8 session (below 64 slot (changed session (having_written slot rule))) (sessions_of self.old.records) }
    {
        self.change(session, |record| record.write(slot, rule));
    }

    pub fn release(&mut self, session: u32, slot: u32)
        ensures { sessions_of self.new.records ≡ below 8 session (below 64 slot (changed session (dropped slot))) (sessions_of self.old.records) }
    {
        self.change(session, |record| record.release(slot));
    }

    pub fn put_forward(&mut self, session: u32)
        ensures { sessions_of self.new.records ≡ below 8 session (changed session put_forward) (sessions_of self.old.records) }
    {
        self.change(session, |record| record.put_forward());
    }

    pub fn abort(&mut self, session: u32)
        ensures { sessions_of self.new.records ≡ below 8 session (changed session aborted) (sessions_of self.old.records) }
    {
        self.change(session, |record| record.abort());
    }

    pub fn receipt(&mut self, session: u32, number: u32)
        ensures { sessions_of self.new.records ≡ below 8 session (changed session (receipted number)) (sessions_of self.old.records) }
    {
        self.change(session, |record| record.receipt(number));
    }

    fn finish(&mut self, session: u32)
        ensures { sessions_of self.new.records ≡ below 8 session (changed session committed) (sessions_of self.old.records) }
    {
        self.change(session, |record| record.commit());
    }

    fn notify(&mut self, session: u32, slots: SlotSet, number: u32)
        ensures { sessions_of self.new.records ≡ below 8 session (changed session (notified (has slots) number)) (sessions_of self.old.records) }
    {
        self.change(session, |record| record.notify(slots, number));
    }

    // Copies with a notice are dropped, and an open change that read one of them ends: is that so?
    pub fn learn(&mut self, session: u32, count: u32, number: u32) -> bool
        ensures after { sessions_of self.new.records ≡ below 8 session (changed session (having_learnt count number)) (sessions_of self.old.records) }
        ensures ended { result ≡ ends_change count (sessions_of self.old.records session) }
    {
        self.change(session, |record| record.learn(count, number))
            .unwrap_or(false)
    }

    // One session's change is committed, and the others that hold a slot that it wrote are told. Where there is no such session, all are others.
    pub fn commit(&mut self, session: u32, slots: SlotSet, number: u32)
        ensures { sessions_of self.new.records ≡ after_commit session (has slots) number (sessions_of self.old.records) }
    {
        for other in 0..SESSIONS {
            if other == session {
                self.finish(other);
            } else {
                self.notify(other, slots, number);
            }
        }
    }

    // The record of a session is lent to a change. Where there is no such session, nothing happens.
    // By index, since the contract of `get_mut` does not say what the array becomes.
    fn change<R, F: FnOnce(&mut Record) -> R>(&mut self, session: u32, change: F) -> Option<R>
        requires { F.IsAlwaysCallable change }
        ensures { Changed (λ before r after. FnOnceReturnsAtMut F.FnOnce change before r after) self.old.records self.new.records session result }
    {
        if session >= SESSIONS {
            return None;
        }
        let record = &mut self.records[session as usize];
        Some(change(record))
    }
}
