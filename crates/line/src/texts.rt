// The text of a call, which reads as that call.
ghost use Rattle.std.specs.Prelude.{◌≡◌, IfOk, Ok, string_bytes};
ghost use Rattle.protocol.specs.Texts.{call_text, Fits};
ghost use Rattle.line.specs.Reading.{call_of};

use protocol::Call;
use stamp::Stamp;
use std::alloc::{AllocError, Global};

// The numbers of a call have 32 bits. A proof knows that of a case that is named, and not of a call, so this names them all.
fn numbers_fit<S: Stamp>(call: Call<S>)
    ensures { Fits call }
{
    match call {
        Call::Begin { .. }
        | Call::Fetch { .. }
        | Call::Read { .. }
        | Call::Write { .. }
        | Call::Drop { .. }
        | Call::Forward { .. }
        | Call::Commit { .. }
        | Call::Abort { .. }
        | Call::Learn { .. }
        | Call::Receipt { .. }
        | Call::Truncate { .. } => {}
    }
}

// The text of a call reads as that call.
fn text_reads_back<S: Stamp>(call: Call<S>)
    ensures { call_of S.Stamp.reads (call_text S.Stamp.text call) ≡ Ok call }
{
    numbers_fit(call)
}

// What `{}` writes of a call: a line that reads as the call.
pub fn call_text<S: Stamp>(heap: Global, call: Call<S>) -> Result<String, AllocError>
    ensures text { IfOk result (λ t. string_bytes t ≡ call_text S.Stamp.text call) }
    ensures reads_back { IfOk result (λ t. call_of S.Stamp.reads (string_bytes t) ≡ Ok call) }
{
    text_reads_back(call);
    call.to_string(heap)
}
