// The lengths of the months.
ghost use Rattle.std.specs.Prelude.{◌≡◌, ◌≤◌};
ghost use Rattle.calendar.specs.Months.{leap, month_length};

const MONTH_LENGTHS: [u8; 12] = [31, 28, 31, 30, 31, 30, 31, 31, 30, 31, 30, 31];

const FEBRUARY: u8 = 2;

const LEAP_FEBRUARY_LENGTH: u8 = 29;

// The last two digits decide, so year 00 of a century is leap.
pub fn is_leap(year: u8) -> bool
    ensures { result ≡ leap year }
{
    year % 4 == 0
}

// The days of a month, counted from 1. Nothing else looks at the table.
pub fn month_length(year: u8, month: u8) -> u8
    requires { (1 ≤ month) × (month ≤ 12) }
    ensures { result ≡ month_length year month }
{
    if month == FEBRUARY && is_leap(year) {
        LEAP_FEBRUARY_LENGTH
    } else {
        MONTH_LENGTHS[month as usize - 1]
    }
}
