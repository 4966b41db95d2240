// A block rule: which packets it speaks of, and whether it lets them pass.
//
// What is no rule cannot be had as a `Rule`: the conditions are invariants of the type.
// Each rule has one text, and that text, and no other, reads as the rule.
#![tactic(auto)]

mod making;
mod reading;
#[cfg(test)]
mod tests;
mod texts;

ghost use Rattle.std.specs.Prelude.{◌≡◌, ◌-◌, ◌%◌, ◌^◌, ◌<◌, ◌≤◌};

pub use reading::{read_action, read_network, read_ports};

#[derive(Clone, Copy, Debug, PartialEq, Eq)]
pub enum Action {
    Allow,
    Block,
}

// The five parts of a rule as plain numbers, which need not make a rule: a table row, a record, a text that was read.
#[derive(Clone, Copy, Debug, PartialEq, Eq)]
pub struct Parts {
    pub address: u32,
    pub prefix: u8,
    pub action: u8,
    pub first: u16,
    pub last: u16,
}

#[derive(Clone, Copy, Debug, PartialEq, Eq)]
pub struct Rule {
    address: u32,
    prefix: u8,
    action: Action,
    first: u16,
    last: u16,
    ghost wide: { address < 2 ^ 32 },
    ghost short: { prefix ≤ 32 },
    // every bit of the address behind the prefix is zero
    ghost clear: { address % 2 ^ (32 - prefix) ≡ 0 },
    ghost rising: { first ≤ last },
    ghost port: { last < 2 ^ 16 },
}
