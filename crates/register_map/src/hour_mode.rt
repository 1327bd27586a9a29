// How a map writes its hours.
ghost use Rattle.std.specs.Prelude.{◌≡◌};
ghost use Rattle.register_map.specs.Modes.{mode_numbered, mode_if, mode_bit};

#[derive(Clone, Copy, PartialEq, Eq, Debug)]
pub enum HourMode {
    // 12, then 1 to 11, in each half of the day
    Twelve,
    // 0 to 23
    TwentyFour,
}

// A number that is no hour mode: over 1.
#[derive(Clone, Copy, PartialEq, Eq, Debug)]
pub struct NoSuchMode;

impl TryFrom<u32> for HourMode {
    type Error = NoSuchMode;

    ghost try_from_gives = { λ number answer. answer ≡ mode_numbered number };

    // 0 for 12 hours, 1 for 24.
    fn try_from(number: u32) -> Result<HourMode, NoSuchMode> {
        match number {
            0 => Ok(HourMode::Twelve),
            1 => Ok(HourMode::TwentyFour),
            _ => Err(NoSuchMode),
        }
    }
}

impl HourMode {
    // As a part's control register has it: a bit that is set for 24 hours. By name, since a truth value alone says no mode.
    pub fn from_bit(set: bool) -> HourMode
        ensures { result ≡ mode_if set }
    {
        if set {
            HourMode::TwentyFour
        } else {
            HourMode::Twelve
        }
    }

    // That bit, in its place.
    pub fn bit(self, mask: u8) -> u8
        ensures { result ≡ mode_bit mask self }
    {
        match self {
            HourMode::Twelve => 0,
            HourMode::TwentyFour => mask,
        }
    }
}
