// What a commit does to its store: every slot written is tried, and then every staged rule is put.
//
// So a commit is refused before anything is put, or it is done whole.
#![tactic(auto)]

ghost use Rattle.std.specs.Prelude.{◌≡◌, length};
ghost use Rattle.std.specs.Result.{result_err};
ghost use Rattle.session.specs.Views as seen;
ghost use Rattle.calls.specs.Checks.{refused_get};
ghost use Rattle.calls.specs.Effects.{puts};
ghost use Rattle.staging.specs.Staged.{slot_cause, slot_put};

use refusal::Refusal;
use session::Record;
use store::{Reading, Storing};

// Whether the rule staged for a slot, if there is one, can be put.
fn check_put<S: Reading>(store: &mut S, own: &Record, slot: u32) -> Result<(), Refusal>
    ensures value { S.Reading.sound store.old → result_err result ≡ slot_cause (seen.view own.now).work.staged (S.Reading.entries store.old) slot }
    ensures same { S.Reading.entries store.new ≡ S.Reading.entries store.old }
    ensures sound { S.Reading.sound store.old → S.Reading.sound store.new }
{
    if own.staged(slot).is_some() {
        store.get(slot)?;
    }
    Ok(())
}

// Puts the rule staged for a slot, if there is one.
fn put_slot<S: Storing>(store: &mut S, own: &Record, slot: u32)
    ensures after { S.Reading.sound store.old → S.Reading.entries store.new ≡ slot_put (seen.view own.now).work.staged (S.Reading.entries store.old) slot }
    ensures sound { S.Reading.sound store.old → S.Reading.sound store.new }
{
    if let Some(rule) = own.staged(slot) {
        // not refused where every slot was tried before
        let _ = store.put(slot, rule);
    }
}

// Whether every staged rule can be put.
#[tactic(auto, using(crate::proofs::Stagings::refused_stop))]
pub fn check_staged<S: Reading>(store: &mut S, own: &Record) -> Result<(), Refusal>
    ensures value { S.Reading.sound store.old → result_err result ≡ refused_get (length (S.Reading.entries store.old)) (seen.view own.now).work.staged (S.Reading.entries store.old) }
    ensures same { S.Reading.entries store.new ≡ S.Reading.entries store.old }
    ensures sound { S.Reading.sound store.old → S.Reading.sound store.new }
{
    for slot in 0..store.count() {
        check_put(store, own, slot)?;
    }
    Ok(())
}

// Puts every staged rule.
pub fn put_staged<S: Storing>(store: &mut S, own: &Record)
    ensures after { S.Reading.sound store.old → S.Reading.entries store.new ≡ puts (length (S.Reading.entries store.old)) (seen.view own.now).work.staged (S.Reading.entries store.old) }
    ensures sound { S.Reading.sound store.old → S.Reading.sound store.new }
{
    for slot in 0..store.count() {
        put_slot(store, own, slot);
    }
}
