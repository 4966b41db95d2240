// One line of every kind of answer.
use answer::AnswerLine;
use protocol::{Answer, Learnt, Reply};
use refusal::Refusal;
use rule::Rule;
use slots::SlotSet;
use std::alloc::Global;
use std::process::Abort;
use std::test::Fail;

fn check_text(rt: &impl Abort, heap: Global, answer: Answer, text: &str) -> Result<(), Fail> {
    let line = AnswerLine { line: 9, answer };
    assert_eq!(rt; line.to_string(heap)?.as_str(), text);
    let mut written = Vec::new(heap);
    line.push_text(&mut written)?;
    assert_eq!(rt; written.as_slice(), text.as_bytes());
    Ok(())
}

#[test]
fn every_kind_is_written(rt: HostRuntime) -> Result<(), Fail> {
    let heap = rt.alloc();
    check_text(&rt, heap, Ok(Reply::Done), "9 0")?;
    check_text(
        &rt,
        heap,
        Ok(Reply::Got(Rule::open())),
        "9 0 0.0.0.0/0 allow 0-65535",
    )?;
    check_text(&rt, heap, Ok(Reply::Queued(0)), "9 0 0")?;
    check_text(&rt, heap, Ok(Reply::Numbered(4294967295)), "9 0 4294967295")?;
    check_text(&rt, heap, Ok(Reply::Removed(32)), "9 0 32")?;
    let refusal = Refusal::WrongPhase { session: 0 };
    check_text(&rt, heap, Err(refusal), "9 4 3 0")
}

#[test]
fn slots_rise(rt: HostRuntime) -> Result<(), Fail> {
    let mut slots = SlotSet::new();
    let none = Learnt {
        number: 1,
        slots,
        ended: false,
    };
    check_text(&rt, rt.alloc(), Ok(Reply::Learnt(none)), "9 0 1 - 0")?;
    slots.insert(63);
    slots.insert(5);
    slots.insert(0);
    let some = Learnt {
        number: 3,
        slots,
        ended: true,
    };
    check_text(&rt, rt.alloc(), Ok(Reply::Learnt(some)), "9 0 3 0,5,63 1")
}
