// How a stamp of a clock is ordered, read and written.
ghost use Rattle.std.specs.Prelude.{Some};
ghost use Rattle.stamp.specs.Order.{clock_key};
ghost use Rattle.stamp.specs.Texts.{clock_text};
ghost use Rattle.stamp.specs.Reading.{clock_of};
ghost use Rattle.std.proofs.Common.{ap, rules, arith};
ghost use Rattle.stamp.specs.declared.Key.{Key};
ghost use Rattle.stamp.specs.TextsLemmas.{same_clock, clock_back, clock_one_text, clock_no_space, clock_short};

use crate::clock::ClockStamp;
use crate::{Key, Stamp};
use std::fmt;
use text::{number, split_once};

impl Stamp for ClockStamp {
    ghost key_of = { clock_key };

    ghost text = { clock_text };

    ghost reads = { clock_of };

    ghost apart = { λ x y e. same_clock x y (ap (λ (k : Key). k.first) e) (ap (λ (k : Key). k.second) e) };

    ghost reads_back = { λ x. clock_back x };

    ghost one_text = { λ bs x e. clock_one_text bs x e };

    ghost no_space = { λ x. clock_no_space x };

    ghost short = { λ x. clock_short x };

    ghost shows = { first_of (Prim.search rules, Prim.grind (arith, Self.row.coded.inj)) };

    fn key(self) -> Key {
        Key {
            first: self.time,
            second: u64::from(self.station),
        }
    }

    fn read(field: &[u8]) -> Option<ClockStamp> {
        let (time, station) = split_once(field, b'.')?;
        let time = number(time, u64::MAX)?;
        let station = number(station, u64::from(u16::MAX))?;
        Some(ClockStamp {
            time,
            station: station as u16,
        })
    }
}

impl fmt::Display for ClockStamp {
    ghost output = { λ s. Some (clock_text s) };

    fn fmt<W: fmt::Write>(&self, f: &mut fmt::Formatter<W>) -> fmt::Result {
        write!(f, "{}.{}", self.time, self.station)
    }
}
