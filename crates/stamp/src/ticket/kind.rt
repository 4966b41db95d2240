// How a ticket is ordered, read and written.
ghost use Rattle.std.specs.Prelude.{Some};
ghost use Rattle.stamp.specs.Order.{ticket_key};
ghost use Rattle.stamp.specs.Texts.{ticket_text};
ghost use Rattle.stamp.specs.Reading.{ticket_of};
ghost use Rattle.std.proofs.Common.{ap, rules, arith};
ghost use Rattle.stamp.specs.declared.Key.{Key};
ghost use Rattle.stamp.specs.TextsLemmas.{same_ticket, ticket_back, ticket_one_text, ticket_no_space, ticket_short};

use crate::ticket::Ticket;
use crate::{Key, Stamp};
use std::fmt;
use text::number;

impl Stamp for Ticket {
    ghost key_of = { ticket_key };

    ghost text = { ticket_text };

    ghost reads = { ticket_of };

    ghost apart = { λ x y e. same_ticket x y (ap (λ (k : Key). k.first) e) };

    ghost reads_back = { λ x. ticket_back x };

    ghost one_text = { λ bs x e. ticket_one_text bs x e };

    ghost no_space = { λ x. ticket_no_space x };

    ghost short = { λ x. ticket_short x };

    ghost shows = { first_of (Prim.search rules, Prim.grind (arith, Self.row.coded.inj)) };

    fn key(self) -> Key {
        Key {
            first: u64::from(self.number),
            second: 0,
        }
    }

    fn read(field: &[u8]) -> Option<Ticket> {
        let number = number(field, u64::from(u32::MAX))?;
        Some(Ticket {
            number: number as u32,
        })
    }
}

impl fmt::Display for Ticket {
    ghost output = { λ t. Some (ticket_text t) };

    fn fmt<W: fmt::Write>(&self, f: &mut fmt::Formatter<W>) -> fmt::Result {
        write!(f, "{}", self.number)
    }
}
