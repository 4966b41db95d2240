// What a line reads as: the letter picks the call, and the fields behind it are read one after another.
ghost use Rattle.std.specs.Prelude.{◌≡◌, Ok};
ghost use Rattle.rule.specs.Reading.{network_of, action_of, ports_of};
ghost use Rattle.protocol.specs.declared.Call.{Call};
ghost use Rattle.protocol.specs.Texts.{call_text, Fits};
ghost use Rattle.line.specs.Left.{fields_left, OneTaken};
ghost use Rattle.line.specs.Reading.{numeral, call_of};
ghost use Rattle.line.specs.Steps.{first_as, last_as, two_as, parts_as, rule_as, write_as, by_letter, letter_of, fields_as};

use crate::cutting::LONGEST;
use crate::fields::Fields;
use protocol::Call;
use refusal::Refusal;
use rule::{Action, Parts, Rule, read_action, read_network, read_ports};
use stamp::Stamp;
use text::number;

fn read_number(field: &[u8]) -> Option<u32>
    ensures { result ≡ numeral field.now }
{
    let number = number(field, u64::from(u32::MAX))?;
    Some(number as u32)
}

// The number in the next field.
fn number_in(fields: &mut Fields) -> Result<u32, Refusal>
    ensures value { result ≡ first_as numeral fields.old.end (fields_left fields.old) }
    ensures taken { OneTaken fields.old fields.new }
{
    fields.next_field()?.read_as(read_number)
}

// The stamp in the next field.
fn stamp_in<S: Stamp>(fields: &mut Fields) -> Result<S, Refusal>
    ensures value { result ≡ first_as S.Stamp.reads fields.old.end (fields_left fields.old) }
    ensures taken { OneTaken fields.old fields.new }
{
    // closures here and below, since a function of another crate cannot be passed by its name
    fields.next_field()?.read_as(|field| S::read(field))
}

fn network_in(fields: &mut Fields) -> Result<(u32, u8), Refusal>
    ensures value { result ≡ first_as network_of fields.old.end (fields_left fields.old) }
    ensures taken { OneTaken fields.old fields.new }
{
    fields.next_field()?.read_as(|field| read_network(field))
}

fn action_in(fields: &mut Fields) -> Result<Action, Refusal>
    ensures value { result ≡ first_as action_of fields.old.end (fields_left fields.old) }
    ensures taken { OneTaken fields.old fields.new }
{
    fields.next_field()?.read_as(|field| read_action(field))
}

fn last_ports_in(fields: &mut Fields) -> Result<(u16, u16), Refusal>
    ensures { result ≡ last_as ports_of fields.old.end (fields_left fields.old) }
{
    let ports = fields.next_field()?.read_as(|field| read_ports(field))?;
    fields.no_more()?;
    Ok(ports)
}

// The number in the last field.
fn last_number_in(fields: &mut Fields) -> Result<u32, Refusal>
    ensures { result ≡ last_as numeral fields.old.end (fields_left fields.old) }
{
    let number = number_in(fields)?;
    fields.no_more()?;
    Ok(number)
}

// The numbers in the last two fields.
fn two_numbers_in(fields: &mut Fields) -> Result<(u32, u32), Refusal>
    ensures { result ≡ two_as numeral numeral fields.old.end (fields_left fields.old) }
{
    let first = number_in(fields)?;
    let second = last_number_in(fields)?;
    Ok((first, second))
}

// The stamp in the last field.
fn last_stamp_in<S: Stamp>(fields: &mut Fields) -> Result<S, Refusal>
    ensures { result ≡ last_as S.Stamp.reads fields.old.end (fields_left fields.old) }
{
    let stamp = stamp_in::<S>(fields)?;
    fields.no_more()?;
    Ok(stamp)
}

// A session and a stamp in the last two fields.
fn change_in<S: Stamp>(fields: &mut Fields) -> Result<(u32, S), Refusal>
    ensures { result ≡ two_as numeral S.Stamp.reads fields.old.end (fields_left fields.old) }
{
    let session = number_in(fields)?;
    let stamp = last_stamp_in::<S>(fields)?;
    Ok((session, stamp))
}

// The parts of a rule in the last three fields.
fn parts_in(fields: &mut Fields) -> Result<Parts, Refusal>
    ensures { result ≡ parts_as fields.old.end (fields_left fields.old) }
{
    let (address, prefix) = network_in(fields)?;
    let action = action_in(fields)?;
    let (first, last) = last_ports_in(fields)?;
    Ok(Parts {
        address,
        prefix,
        action: u8::from(action),
        first,
        last,
    })
}

// The rule in the last three fields.
fn rule_in(fields: &mut Fields) -> Result<Rule, Refusal>
    ensures { result ≡ rule_as fields.old.end (fields_left fields.old) }
{
    let at = fields.place();
    let parts = parts_in(fields)?;
    // told at its first byte
    Rule::try_from(parts).map_err(|_| Refusal::NoRule { at })
}

// What a write writes, in the last five fields.
fn write_in<S: Stamp>(fields: &mut Fields) -> Result<Call<S>, Refusal>
    ensures { result ≡ write_as fields.old.end (fields_left fields.old) }
{
    let session = number_in(fields)?;
    let slot = number_in(fields)?;
    let rule = rule_in(fields)?;
    Ok(Call::Write {
        session,
        slot,
        rule,
    })
}

// The letter, which is all of the first field.
fn letter_in(field: &[u8]) -> Option<char>
    ensures { result ≡ letter_of field.now }
{
    match field {
        [letter] => Some(char::from(*letter)),
        _ => None,
    }
}

// The call that the letter picks. A rule of the project: a letter is a `char`, and told by a literal.
fn call_in<S: Stamp>(letter: char, fields: &mut Fields) -> Result<Call<S>, Refusal>
    ensures { result ≡ by_letter S.Stamp.reads fields.old.end letter (fields_left fields.old) }
{
    match letter {
        'b' => {
            let session = last_number_in(fields)?;
            Ok(Call::Begin { session })
        }
        'f' => {
            let (session, slot) = two_numbers_in(fields)?;
            Ok(Call::Fetch { session, slot })
        }
        'r' => {
            let (session, slot) = two_numbers_in(fields)?;
            Ok(Call::Read { session, slot })
        }
        'w' => write_in::<S>(fields),
        'd' => {
            let (session, slot) = two_numbers_in(fields)?;
            Ok(Call::Drop { session, slot })
        }
        'p' => {
            let (session, stamp) = change_in::<S>(fields)?;
            Ok(Call::Forward { session, stamp })
        }
        'c' => {
            let session = last_number_in(fields)?;
            Ok(Call::Commit { session })
        }
        'a' => {
            let session = last_number_in(fields)?;
            Ok(Call::Abort { session })
        }
        'l' => {
            let session = last_number_in(fields)?;
            Ok(Call::Learn { session })
        }
        'k' => {
            let (session, number) = two_numbers_in(fields)?;
            Ok(Call::Receipt { session, number })
        }
        't' => {
            let stamp = last_stamp_in::<S>(fields)?;
            Ok(Call::Truncate { stamp })
        }
        _ => Err(Refusal::Unreadable { at: 0 }),
    }
}

// The first field is the letter.
fn fields_in<S: Stamp>(fields: &mut Fields) -> Result<Call<S>, Refusal>
    ensures { result ≡ fields_as S.Stamp.reads fields.old.end (fields_left fields.old) }
{
    let Some(first) = fields.cutter.next() else {
        return Err(Refusal::Unreadable { at: 0 });
    };
    match letter_in(first.bytes) {
        Some(letter) => call_in::<S>(letter, fields),
        None => Err(Refusal::Unreadable { at: 0 }),
    }
}

// The call that a line writes. Two lines that read as the same call are equal, since each is the text of the call.
pub fn read_call<S: Stamp>(line: &[u8]) -> Result<Call<S>, Refusal>
    ensures value { result ≡ call_of S.Stamp.reads line.now }
    ensures one_text { (call : Call S) → result ≡ Ok call → line.now ≡ call_text S.Stamp.text call }
    ensures reads_back { (call : Call S) → Fits call → line.now ≡ call_text S.Stamp.text call → result ≡ Ok call }
{
    if line.len() > LONGEST {
        return Err(Refusal::Unreadable { at: LONGEST as u32 });
    }
    let mut fields = Fields::new(line);
    fields_in::<S>(&mut fields)
}
