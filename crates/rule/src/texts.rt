// How a rule is written.
ghost use Rattle.std.specs.Prelude.{Some};
ghost use Rattle.text.specs.Appending.{Appends};
ghost use Rattle.rule.specs.Text.{action_text, address_text, network_text, ports_text, text};

use crate::{Action, Rule};
use std::alloc::AllocError;
use std::fmt;
use text::push_number;

impl fmt::Display for Action {
    ghost output = { λ a. Some (action_text a) };

    fn fmt<W: fmt::Write>(&self, f: &mut fmt::Formatter<W>) -> fmt::Result {
        match *self {
            Action::Allow => write!(f, "allow"),
            Action::Block => write!(f, "block"),
        }
    }
}

impl fmt::Display for Rule {
    ghost output = { λ r. Some (text r) };

    fn fmt<W: fmt::Write>(&self, f: &mut fmt::Formatter<W>) -> fmt::Result {
        let [a, b, c, d] = self.address.to_be_bytes();
        let Rule {
            prefix,
            action,
            first,
            last,
            ..
        } = *self;
        write!(f, "{a}.{b}.{c}.{d}/{prefix} {action} {first}-{last}")
    }
}

// Four octets with dots between them.
fn push_address(out: &mut Vec<u8>, address: u32) -> Result<(), AllocError>
    ensures { Appends out.old.items (address_text address) result out.new.items }
{
    let [a, b, c, d] = address.to_be_bytes();
    push_number(out, u64::from(a))?;
    out.push(b'.')?;
    push_number(out, u64::from(b))?;
    out.push(b'.')?;
    push_number(out, u64::from(c))?;
    out.push(b'.')?;
    push_number(out, u64::from(d))
}

fn push_network(out: &mut Vec<u8>, address: u32, prefix: u8) -> Result<(), AllocError>
    ensures { Appends out.old.items (network_text address prefix) result out.new.items }
{
    push_address(out, address)?;
    out.push(b'/')?;
    push_number(out, u64::from(prefix))
}

fn push_action(out: &mut Vec<u8>, action: Action) -> Result<(), AllocError>
    ensures { Appends out.old.items (action_text action) result out.new.items }
{
    match action {
        Action::Allow => out.extend_from_slice(b"allow"),
        Action::Block => out.extend_from_slice(b"block"),
    }
}

fn push_ports(out: &mut Vec<u8>, first: u16, last: u16) -> Result<(), AllocError>
    ensures { Appends out.old.items (ports_text first last) result out.new.items }
{
    push_number(out, u64::from(first))?;
    out.push(b'-')?;
    push_number(out, u64::from(last))
}

impl Rule {
    // Writes the text of the rule behind what was written before.
    pub fn push_text(self, out: &mut Vec<u8>) -> Result<(), AllocError>
        ensures { Appends out.old.items (text self) result out.new.items }
    {
        push_network(out, self.address, self.prefix)?;
        out.push(b' ')?;
        push_action(out, self.action)?;
        out.push(b' ')?;
        push_ports(out, self.first, self.last)
    }
}
