// The queue of accepted changes, pending or committed, in the order of acceptance.
//
// It has room for 32 from the start and never takes more memory. What it means is a list of entries of the definitions of the calls,
// and each method answers, or does to it, what its definition says.
#![tactic(auto)]

mod checks;
mod edits;
mod entry;

ghost use Rattle.std.specs.Prelude.{◌≤◌, vec_len, vec_capacity};

pub use entry::{Change, Stage};

// As many changes fit.
pub const ROOM: usize = 32;

// No `impl Model`: the entries of the definitions hold functions of the slot, and the value of a model has to be data.
#[derive(Drop)]
pub struct Queue {
    changes: Vec<Change>,
    ghost few: { vec_len changes ≤ 32 },
    ghost room: { 32 ≤ vec_capacity changes },
}
