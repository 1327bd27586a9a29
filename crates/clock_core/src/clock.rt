// The core's record, with what every core keeps.
ghost use Rattle.std.specs.Prelude.{◌<◌, ◌≤◌};

use refusals::Refusal;

// Released, or held; only a held core has a boundary that may wait.
#[derive(Clone, Copy, PartialEq, Eq, Debug)]
pub enum Hold {
    Released,
    Held { boundary_waits: bool },
}

#[derive(Drop)]
pub struct ClockCore<M> {
    pub map: M,
    pub trim: u8,
    pub position: u32,
    pub second_length: u32,
    pub hold: Hold,
    ghost trim_in_range: { trim < 128 },
    ghost within_second: { position < second_length },
    ghost shortest: { 32644 ≤ second_length },
    ghost longest: { second_length ≤ 32892 },
}

// A refused make gives the map back.
#[derive(Drop)]
pub struct MakeRefused<M> {
    pub refusal: Refusal,
    pub map: M,
}
