// Why a call is refused. Each case has its number in the refusal table (docs/REFUSALS.md).
#![tactic(auto)]

ghost use Rattle.std.specs.Prelude.{◌≡◌, ◌++◌, Some, codes, decimal};
ghost use Rattle.refusals.specs.Numbers.{number_of};

use std::error::Error;
use std::fmt;

#[derive(Clone, Copy, PartialEq, Eq, Debug)]
pub enum Refusal {
    // load: the moment is not below the map's cycle, or the weekday is over 6
    NoSuchMoment,
    // load or make: the trim is over 127; load: the hour mode is over 1
    NoSuchSetting,
    // over 1,048,576 pulses in one call
    TooManyPulses,
    // pin levels over 7
    NoSuchLevels,
    // CE and SCLK both change in one call
    TwoPinsChange,
    // a look under 16 bytes, a line under 64
    ShortBuffer,
    // a cell or an address that is not there, or data over 15 where a cell has four bits
    NoSuchCell,
    // make with a map that shows no moment
    ShowsNone,
    // hold while held
    AlreadyHeld,
    // release while released
    NotHeld,
    // a single transfer on a part that does not await a header
    NoHeaderAwaited,
    // a tape record of an unknown kind
    UnknownKind,
    // a tape that ends inside a record
    TapeEnds,
    // a tape over 4,096 bytes
    TapeTooLong,
    // a number of more than five groups, or with a padded last group
    BadNumber,
}

// The number by which makers and hosts know it. By a match: two pairs of refusals share a number, so it is no discriminant.
impl From<Refusal> for u8 {
    ghost from_gives = { λ why number. number ≡ number_of why };

    fn from(why: Refusal) -> u8 {
        match why {
            Refusal::NoSuchMoment => 1,
            Refusal::NoSuchSetting => 2,
            Refusal::TooManyPulses => 3,
            Refusal::NoSuchLevels => 4,
            Refusal::TwoPinsChange => 5,
            Refusal::ShortBuffer => 6,
            Refusal::NoSuchCell => 7,
            Refusal::ShowsNone => 8,
            Refusal::AlreadyHeld => 9,
            Refusal::NotHeld => 10,
            Refusal::NoHeaderAwaited => 10,
            Refusal::UnknownKind => 11,
            Refusal::TapeEnds => 12,
            Refusal::TapeTooLong => 12,
            Refusal::BadNumber => 13,
        }
    }
}

impl fmt::Display for Refusal {
    ghost output = { λ why. Some (codes "refused with " ++ decimal (number_of why)) };

    fn fmt<W: fmt::Write>(&self, f: &mut fmt::Formatter<W>) -> fmt::Result {
        write!(f, "refused with {}", u8::from(*self))
    }
}

impl Error for Refusal {}
