// A time of day that exists.
ghost use Rattle.std.specs.Prelude.{◌<◌};

#[derive(Clone, Copy, PartialEq, Eq, Debug)]
pub struct TimeOfDay {
    pub hour: u8,
    pub minute: u8,
    pub second: u8,
    ghost an_hour: { hour < 24 },
    ghost a_minute: { minute < 60 },
    ghost a_second: { second < 60 },
}
