// How a call is written.
ghost use Rattle.std.specs.Prelude.{Some};
ghost use Rattle.protocol.specs.Texts.{call_text};

use crate::Call;
use stamp::Stamp;
use std::fmt;

impl<S: Stamp> fmt::Display for Call<S> {
    ghost output = { λ c. Some (call_text S.Stamp.text c) };

    fn fmt<W: fmt::Write>(&self, f: &mut fmt::Formatter<W>) -> fmt::Result {
        match *self {
            Call::Begin { session } => write!(f, "b {session}"),
            Call::Fetch { session, slot } => write!(f, "f {session} {slot}"),
            Call::Read { session, slot } => write!(f, "r {session} {slot}"),
            Call::Write {
                session,
                slot,
                rule,
            } => write!(f, "w {session} {slot} {rule}"),
            Call::Drop { session, slot } => write!(f, "d {session} {slot}"),
            Call::Forward { session, stamp } => write!(f, "p {session} {stamp}"),
            Call::Commit { session } => write!(f, "c {session}"),
            Call::Abort { session } => write!(f, "a {session}"),
            Call::Learn { session } => write!(f, "l {session}"),
            Call::Receipt { session, number } => write!(f, "k {session} {number}"),
            Call::Truncate { stamp } => write!(f, "t {stamp}"),
        }
    }
}
