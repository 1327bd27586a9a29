// Numbers in decimal digits, and two digits in one cell.
ghost use Rattle.std.specs.Prelude.{◌≡◌, ◌<◌};
ghost use Rattle.calendar.specs.Digits.{digits_of, number_of, packed, unpacked};

use crate::digits::Digits;

// By name: a number and a cell are both a byte, so neither is the one From.
impl Digits {
    // The two digits of a number below 100.
    pub fn of(number: u8) -> Digits
        ensures { result ≡ digits_of number }
    {
        Digits {
            tens: number / 10,
            units: number % 10,
        }
    }

    // The number spelt, or none where a digit is over 9.
    pub fn number(self) -> Option<u8>
        ensures { result ≡ number_of self }
    {
        if self.tens < 10 && self.units < 10 {
            Some(10 * self.tens + self.units)
        } else {
            None
        }
    }

    // Both digits in one cell, the tens in the high four bits.
    pub fn pack(self) -> u8
        requires { (self.tens < 16) × (self.units < 16) }
        ensures { result ≡ packed self }
    {
        16 * self.tens + self.units
    }

    // The two digits in a cell.
    pub fn unpack(cell: u8) -> Digits
        ensures { result ≡ unpacked cell }
    {
        Digits {
            tens: cell / 16,
            units: cell % 16,
        }
    }
}
