// Lines done on a book: what the program does with each line of a script.
//
// Every list of bytes gets an answer. A line that is no call is refused and leaves the book as it was; one that is a call is done, with the answer and the
// effect of its definition. The law of the book holds after each line.
#![tactic(auto)]

ghost use Rattle.std.specs.Prelude.{◌≡◌, List, Err};
ghost use Rattle.refusal.specs.declared.Refusal.{Refusal};
ghost use Rattle.store.specs.declared.Entry.{Entry};
ghost use Rattle.line.specs.Reading.{call_of};
ghost use Rattle.calls.specs.Histories.{Event, Reached, LawOf};
ghost use Rattle.book.specs.Runs.{Sound};
ghost use Rattle.book.specs.Views.{view, answer_view};
ghost use Rattle.script.specs.Lines.{line_answer, line_after, line_history};

use book::Book;
use line::read_call;
use protocol::Answer;
use stamp::Stamp;
use store::Storing;

// Does a line.
pub fn do_line<S: Storing, K: Stamp>(book: &mut Book<S>, line: &[u8]) -> Answer
    ensures answer { Sound S.Reading book.old → answer_view result ≡ line_answer K.Stamp.key_of (call_of K.Stamp.reads line.now) (view S.Reading book.old) }
    ensures after { Sound S.Reading book.old → view S.Reading book.new ≡ line_after K.Stamp.key_of (call_of K.Stamp.reads line.now) (view S.Reading book.old) }
    ensures refused { (e : Refusal) → call_of K.Stamp.reads line.now ≡ Err e → book.new ≡ book.old }
    ensures sound { Sound S.Reading book.old → Sound S.Reading book.new }
    ensures store { S.Reading.sound book.old.store → S.Reading.sound book.new.store }
    ensures reached { S.Reading.sound book.old.store → (first : List Entry) (h : List Event) → Reached first h (view S.Reading book.old) → Reached first (line_history K.Stamp.key_of (call_of K.Stamp.reads line.now) (answer_view result) h) (view S.Reading book.new) }
    ensures law { S.Reading.sound book.old.store → (first : List Entry) (h : List Event) → Reached first h (view S.Reading book.old) → LawOf first (line_history K.Stamp.key_of (call_of K.Stamp.reads line.now) (answer_view result) h) (S.Reading.entries book.new.store) }
{
    let call = read_call::<K>(line)?;
    book.apply(call)
}
