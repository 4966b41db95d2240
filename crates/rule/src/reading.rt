// What a text reads as: the three fields of a rule, and the rule.
ghost use Rattle.std.specs.Prelude.{◌≡◌, ◌+◌, ◌≤◌, ◌∷◌, length, IfSome, Ok, Err};
ghost use Rattle.std.specs.Fn.{FnOnceReturnsAt};
ghost use Rattle.std.specs.Option.{option_map};
ghost use Rattle.text.specs.Numbers.{number_of};
ghost use Rattle.rule.specs.Reading.{dotted, address_of, network_of, action_of, ports_of, fields, read_parts, parts_or_refusal, read_rule, unreadable_at};
ghost use Rattle.rule.specs.Borrowed.{fields_behind, length_behind, octet_and_rest, ReadsField};
ghost use Rattle.rule.specs.Text.{text};

use crate::{Action, Parts, Rule};
use refusal::Refusal;
use text::{number, octet, split_once};

// An octet, and what stands behind its dot.
fn read_dotted(field: &[u8]) -> Option<(u8, &[u8])>
    ensures { option_map octet_and_rest result ≡ dotted field.now }
{
    let (first, rest) = split_once(field, b'.')?;
    Some((octet(first)?, rest))
}

fn read_address(field: &[u8]) -> Option<u32>
    ensures { result ≡ address_of field.now }
{
    let (a, rest) = read_dotted(field)?;
    let (b, rest) = read_dotted(rest)?;
    let (c, rest) = read_dotted(rest)?;
    let d = octet(rest)?;
    Some(u32::from_be_bytes([a, b, c, d]))
}

// An address and the length of its prefix.
pub fn read_network(field: &[u8]) -> Option<(u32, u8)>
    ensures { result ≡ network_of field.now }
{
    let (address, prefix) = split_once(field, b'/')?;
    let address = read_address(address)?;
    let prefix = number(prefix, u64::from(u8::MAX))?;
    Some((address, prefix as u8))
}

pub fn read_action(field: &[u8]) -> Option<Action>
    ensures { result ≡ action_of field.now }
{
    match field {
        b"allow" => Some(Action::Allow),
        b"block" => Some(Action::Block),
        _ => None,
    }
}

// The first and the last port.
pub fn read_ports(field: &[u8]) -> Option<(u16, u16)>
    ensures { result ≡ ports_of field.now }
{
    let (first, last) = split_once(field, b'-')?;
    let first = number(first, u64::from(u16::MAX))?;
    let last = number(last, u64::from(u16::MAX))?;
    Some((first as u16, last as u16))
}

// The first field, and what stands behind the space that ends it.
fn first_field(bytes: &[u8]) -> (&[u8], Option<&[u8]>)
    ensures cut { fields bytes.now ≡ result.0.now ∷ fields_behind result.1 }
    ensures long { length bytes.now ≡ length result.0.now + length_behind result.1 }
{
    match split_once(bytes, b' ') {
        Some((field, rest)) => (field, Some(rest)),
        None => (bytes, None),
    }
}

// What the next field reads as, and what stands behind it.
fn read_field<T: Copy, F: FnOnce(&[u8]) -> Option<T>>(
    rest: Option<&[u8]>,
    end: usize,
    read: F,
) -> Result<(T, Option<&[u8]>), Refusal>
    requires callable { F.IsAlwaysCallable read }
    requires fits { IfSome rest (λ r. length r.now ≤ end) }
    ensures missing { rest.entry ≡ None → result ≡ Err (unreadable_at end) }
    ensures reads { IfSome rest.entry (λ r. ReadsField (FnOnceReturnsAt F.FnOnce read) r end result) }
{
    let rest = rest.ok_or(unreadable(end))?;
    let (field, behind) = first_field(rest);
    let value = read(field).ok_or(unreadable(end - rest.len()))?;
    Ok((value, behind))
}

// The parts that the fields write, or the refusal of the first wrong one.
fn read_parts(bytes: &[u8]) -> Result<Parts, Refusal>
    ensures { result ≡ parts_or_refusal (read_parts bytes.now) }
{
    let end = bytes.len();
    let ((address, prefix), rest) = read_field(Some(bytes), end, read_network)?;
    let (action, rest) = read_field(rest, end, read_action)?;
    let ((first, last), rest) = read_field(rest, end, read_ports)?;
    if let Some(rest) = rest {
        return Err(unreadable(end - rest.len()));
    }
    Ok(Parts {
        address,
        prefix,
        action: u8::from(action),
        first,
        last,
    })
}

fn unreadable(place: usize) -> Refusal
    ensures { result ≡ unreadable_at place }
{
    Refusal::Unreadable {
        at: u32::try_from(place).unwrap_or(u32::MAX),
    }
}

impl Rule {
    // The rule that a text writes.
    pub fn read(bytes: &[u8]) -> Result<Rule, Refusal>
        ensures value { result ≡ read_rule bytes.now }
        ensures one_text { (rule : Rule) → result ≡ Ok rule → bytes.now ≡ text rule }
        ensures reads_back { (rule : Rule) → bytes.now ≡ text rule → result ≡ Ok rule }
    {
        Rule::try_from(read_parts(bytes)?)
    }
}
