// Lines that become calls.
//
// A line is cut into fields, each with its place, and then read: `specs/Reading.antt` says of every list of bytes which call
// or which refusal it is. Each call has one text, and that text, and no other, reads as the call.
#![tactic(auto)]

mod cutting;
mod fields;
mod reading;
mod texts;

pub use cutting::{Field, LONGEST, Line, cut, cut_fields};
pub use reading::read_call;
pub use texts::call_text;
