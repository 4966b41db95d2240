// The text of an answer: what the program writes for each line that it reads.
//
// `specs/Texts.antt` sets out the text of every answer: the line's number, the result, and then the value, or layer and place.
#![tactic(auto)]

mod slot_list;

ghost use Rattle.std.specs.Prelude.{◌++◌, Some, codes, decimal};
ghost use Rattle.rule.specs.Text.{text};
ghost use Rattle.text.specs.Appending.{Appends};
ghost use Rattle.answer.specs.Texts.{learnt_text, answer_text, line_text};

use protocol::{Answer, Learnt, Reply};
use rule::Rule;
use slot_list::{SlotList, push_slots};
use std::alloc::AllocError;
use std::fmt;
use text::push_number;

// The answer to a line, with the number of the line.
#[derive(Clone, Copy, PartialEq, Eq)]
pub struct AnswerLine {
    pub line: u64,
    pub answer: Answer,
}

// A call that is done, and the number that it gave.
fn push_number_given(out: &mut Vec<u8>, number: u32) -> Result<(), AllocError>
    ensures { Appends out.old.items (codes "0 " ++ decimal number) result out.new.items }
{
    out.extend_from_slice(b"0 ")?;
    push_number(out, u64::from(number))
}

// A call that is done, and the rule that it gave.
fn push_rule_given(out: &mut Vec<u8>, rule: Rule) -> Result<(), AllocError>
    ensures { Appends out.old.items (codes "0 " ++ text rule) result out.new.items }
{
    out.extend_from_slice(b"0 ")?;
    rule.push_text(out)
}

// A call that is done, the number learnt, the slots, and 1 where a change ended.
fn push_learnt(out: &mut Vec<u8>, learnt: Learnt) -> Result<(), AllocError>
    ensures { Appends out.old.items (codes "0 " ++ learnt_text learnt) result out.new.items }
{
    push_number_given(out, learnt.number)?;
    out.push(b' ')?;
    push_slots(out, learnt.slots)?;
    out.push(b' ')?;
    push_number(out, u64::from(learnt.ended))
}

fn push_answer(out: &mut Vec<u8>, answer: Answer) -> Result<(), AllocError>
    ensures { Appends out.old.items (answer_text answer) result out.new.items }
{
    match answer {
        Ok(Reply::Done) => out.extend_from_slice(b"0"),
        Ok(Reply::Got(rule)) => push_rule_given(out, rule),
        Ok(Reply::Queued(place)) => push_number_given(out, place),
        Ok(Reply::Numbered(number)) => push_number_given(out, number),
        Ok(Reply::Learnt(learnt)) => push_learnt(out, learnt),
        Ok(Reply::Removed(count)) => push_number_given(out, count),
        Err(refusal) => refusal.push_text(out),
    }
}

impl AnswerLine {
    // Writes the line behind what was written before, without the byte that ends it.
    pub fn push_text(self, out: &mut Vec<u8>) -> Result<(), AllocError>
        ensures { Appends out.old.items (line_text self) result out.new.items }
    {
        push_number(out, self.line)?;
        out.push(b' ')?;
        push_answer(out, self.answer)
    }
}

impl fmt::Display for AnswerLine {
    ghost output = { λ a. Some (line_text a) };

    fn fmt<W: fmt::Write>(&self, f: &mut fmt::Formatter<W>) -> fmt::Result {
        let line = self.line;
        match self.answer {
            Ok(Reply::Done) => write!(f, "{line} 0"),
            Ok(Reply::Got(rule)) => write!(f, "{line} 0 {rule}"),
            Ok(Reply::Queued(number) | Reply::Numbered(number) | Reply::Removed(number)) => {
                write!(f, "{line} 0 {number}")
            }
            Ok(
                Reply::Learnt(
                    Learnt {
                        number,
                        slots,
                        ended,
                    },
                ),
            ) => {
                let list = SlotList { slots };
                let ended = u8::from(ended);
                write!(f, "{line} 0 {number} {list} {ended}")
            }
            Err(refusal) => write!(f, "{line} {refusal}"),
        }
    }
}
