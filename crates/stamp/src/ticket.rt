// Tickets, numbered in the order in which they are given out.
mod kind;

ghost use Rattle.std.specs.Prelude.{◌^◌, ◌<◌};

#[derive(Clone, Copy, Debug, PartialEq, Eq, PartialOrd, Ord)]
pub struct Ticket {
    pub number: u32,
    ghost wide: { number < 2 ^ 32 },
}
