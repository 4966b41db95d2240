// Stamps of a clock: a time, and the station that took it.
mod kind;

ghost use Rattle.std.specs.Prelude.{◌^◌, ◌<◌};

#[derive(Clone, Copy, Debug, PartialEq, Eq, PartialOrd, Ord)]
pub struct ClockStamp {
    pub time: u64,
    pub station: u16,
    ghost wide: { time < 2 ^ 64 },
    ghost near: { station < 2 ^ 16 },
}
