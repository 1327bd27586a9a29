// How a map writes its hours in digits.
ghost use Rattle.std.specs.Prelude.{◌≡◌, ◌<◌, ◌≤◌};
ghost use Rattle.calendar.specs.Digits.{hour_digits, half_day, hour_of};

use crate::digits::Digits;
use register_map::hour_mode::HourMode;

// In 12-hour mode the afternoon adds the mark to the tens.
#[derive(Clone, Copy, PartialEq, Eq, Debug)]
pub struct HourFace {
    pub mode: HourMode,
    pub mark: u8,
}

// The hour of the half day that begins at a given hour: 12, then 1 to 11.
fn hour_of_half(begin: u8, tens: u8, units: u8) -> Option<u8>
    requires { begin ≤ 12 }
    ensures { result ≡ half_day begin tens units }
{
    let face = 10 * tens as u16 + units as u16;
    if units < 10 && 0 < face && face <= 12 {
        Some(begin + (face % 12) as u8)
    } else {
        None
    }
}

impl HourFace {
    // The digits of an hour.
    pub fn digits(self, hour: u8) -> Digits
        requires { (hour < 24) × (self.mark ≤ 14) }
        ensures { result ≡ hour_digits self.mode self.mark hour }
    {
        match self.mode {
            HourMode::TwentyFour => Digits::of(hour),
            HourMode::Twelve => {
                let face = Digits::of((hour + 11) % 12 + 1);
                if hour < 12 {
                    face
                } else {
                    Digits {
                        tens: face.tens + self.mark,
                        units: face.units,
                    }
                }
            }
        }
    }

    // The hour spelt, or none where these are not the digits of an hour.
    pub fn hour(self, digits: Digits) -> Option<u8>
        ensures { result ≡ hour_of self.mode self.mark digits }
    {
        let Digits { tens, units } = digits;
        match self.mode {
            HourMode::TwentyFour => {
                if units < 10 && 10 * tens as u16 + (units as u16) < 24 {
                    Some(10 * tens + units)
                } else {
                    None
                }
            }
            HourMode::Twelve => {
                if tens < self.mark {
                    hour_of_half(0, tens, units)
                } else {
                    hour_of_half(12, tens - self.mark, units)
                }
            }
        }
    }
}
