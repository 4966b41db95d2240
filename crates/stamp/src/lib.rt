// Stamps: what puts changes in one order.
//
// A kind of stamp gives each of its stamps a key of two numbers, and no two stamps the same key. Keys are in a strict order
// in which of two different keys one is before the other, so stamps are.
#![tactic(auto)]

mod clock;
mod ticket;

ghost use Rattle.std.specs.Prelude.{◌≡◌, ℕ, ◌≤◌, false, List, length, Some, Option};
ghost use Rattle.stamp.specs.Lacking.{Unspaced};
ghost use Rattle.stamp.specs.declared.Key.{Key};
ghost use Rattle.stamp.specs.Order.{key_before};

pub use clock::ClockStamp;
use std::fmt::Display;
pub use ticket::Ticket;

// The place of a stamp in the order.
#[derive(Clone, Copy, PartialEq, Eq, PartialOrd, Ord)]
pub struct Key {
    pub first: u64,
    pub second: u64,
}

impl Key {
    // Whether this key is the smaller one: the first numbers decide, and where they are equal the second.
    // Where neither of two keys is before the other, they are equal.
    pub fn before(self, other: Key) -> bool
        ensures value { result ≡ key_before self other }
        ensures total { result ≡ false → key_before other self ≡ false → self ≡ other }
    {
        self < other
    }
}

// A kind of stamp.
pub trait Stamp: Copy + Display {
    ghost key_of: { Self → Key };

    // how a stamp is written
    ghost text: { Self → List ℕ };

    // the stamp that a field writes
    ghost reads: { List ℕ → Option Self };

    fn key(self) -> Key
        ensures { result ≡ key_of self };

    fn read(field: &[u8]) -> Option<Self>
        ensures { result ≡ reads field.now };

    // Whether this stamp is the earlier one: exactly where its key is the smaller one.
    // Where neither of two stamps is before the other, they are equal.
    fn before(self, other: Self) -> bool
        ensures value { result ≡ key_before (key_of self) (key_of other) }
        ensures total { result ≡ false → key_before (key_of other) (key_of self) ≡ false → self ≡ other }
    {
        self.key().before(other.key())
    }

    // different stamps have different keys
    ghost apart: { (x y : Self) → key_of x ≡ key_of y → x ≡ y };

    // the text of a stamp reads as that stamp
    ghost reads_back: { (x : Self) → reads (text x) ≡ Some x };

    // and no other text does
    ghost one_text: { (bs : List ℕ) (x : Self) → reads bs ≡ Some x → bs ≡ text x };

    // it stands in one field of a line
    ghost no_space: { (x : Self) → Unspaced (text x) };

    ghost short: { (x : Self) → length (text x) ≤ 40 };

    // and is what `{}` writes
    ghost shows: { (x : Self) → Self.Display.output x ≡ Some (text x) };
}

#[cfg(test)]
mod tests {
    use super::*;
    use std::test::Fail;

    #[test]
    fn time_decides_first(rt: HostRuntime) {
        let early = ClockStamp {
            time: 7,
            station: 9,
        };
        let late = ClockStamp {
            time: 8,
            station: 1,
        };
        assert!(rt; early.before(late));
        assert_eq!(rt; late.before(early), false);
    }

    #[test]
    fn a_point_stands_between(rt: HostRuntime) -> Result<(), Fail> {
        let stamp = ClockStamp {
            time: 8,
            station: 10,
        };
        assert_eq!(rt; stamp.to_string(rt.alloc())?.as_str(), "8.10");
        Ok(())
    }
}
