// Rules from their parts, and their parts again.
ghost use Rattle.std.specs.Prelude.{◌≡◌};
ghost use Rattle.rule.specs.Making.{Numbered, Made, parts_of, open_rule, action_number};

use crate::{Action, Parts, Rule};
use refusal::Refusal;

impl From<Action> for u8 {
    ghost from_gives = { λ action number. number ≡ action_number action };

    fn from(action: Action) -> u8 {
        match action {
            Action::Allow => 0,
            Action::Block => 1,
        }
    }
}

// The action with a number in a row or a record.
impl TryFrom<u8> for Action {
    type Error = Refusal;

    ghost try_from_gives = { Numbered };

    fn try_from(number: u8) -> Result<Action, Refusal> {
        match number {
            0 => Ok(Action::Allow),
            1 => Ok(Action::Block),
            _ => Err(Refusal::NoRule { at: 0 }),
        }
    }
}

// The rule with these parts, if they make one.
impl TryFrom<Parts> for Rule {
    type Error = Refusal;

    ghost try_from_gives = { Made };

    fn try_from(parts: Parts) -> Result<Rule, Refusal> {
        let Parts {
            address,
            prefix,
            action,
            first,
            last,
        } = parts;
        let action = Action::try_from(action)?;
        // in 64 bits, since a prefix of length 0 leaves all 32 bits behind it
        if prefix > 32 || u64::from(address) % (1u64 << (32 - prefix)) != 0 || first > last {
            return Err(Refusal::NoRule { at: 0 });
        }
        Ok(Rule {
            address,
            prefix,
            action,
            first,
            last,
        })
    }
}

impl From<Rule> for Parts {
    ghost from_gives = { λ rule parts. parts ≡ parts_of rule };

    fn from(rule: Rule) -> Parts {
        Parts {
            address: rule.address,
            prefix: rule.prefix,
            action: u8::from(rule.action),
            first: rule.first,
            last: rule.last,
        }
    }
}

impl Rule {
    // The rule that lets everything pass.
    #[tactic(auto, using(crate::proofs::Rules::same_rule), unfolding(crate::specs::Making::open_rule))]
    pub fn open() -> Rule
        ensures { result ≡ open_rule }
    {
        Rule {
            address: 0,
            prefix: 0,
            action: Action::Allow,
            first: 0,
            last: 65535,
        }
    }
}
