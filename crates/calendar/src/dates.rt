// Dates from and to day numbers, and the date after a date.
ghost use Rattle.std.specs.Prelude.{◌≡◌, ◌-◌, ◌<◌, ◌≤◌};
ghost use Rattle.std.specs.Option.{option_map};
ghost use Rattle.calendar.specs.Months.{leap, month_lengths};
ghost use Rattle.calendar.specs.Runs.{start};
ghost use Rattle.calendar.specs.Dates.{date, day_number, year_start, year_of_day, date_in_year, date_of_day, existing_date, next_date};
ghost use Rattle.calendar.specs.Views.{date_of};

use crate::date::Date;
use crate::months::month_length;

const DAYS_OF_FOUR_YEARS: u32 = 1461;

const DAYS_OF_A_COMMON_YEAR: u32 = 365;

const DECEMBER: u8 = 12;

// The days before a year: every fourth year, from year 0 on, has one more.
pub fn first_day(year: u8) -> u32
    ensures { result ≡ year_start year }
{
    let year = year as u32;
    DAYS_OF_A_COMMON_YEAR * year + (year + 3) / 4
}

// The year of a day: four years have 1461 days, the first of them 366.
fn year_of_day(day: u32) -> u8
    requires { day < 73050 }
    ensures { result ≡ year_of_day day }
{
    (4 * day / DAYS_OF_FOUR_YEARS) as u8
}

// The days of a year before a month.
fn days_before(year: u8, month: u8) -> u16
    requires { (1 ≤ month) × (month ≤ 12) }
    ensures value { result ≡ start (month_lengths (leap year)) (month - 1) }
    ensures bound { result ≤ 366 }
{
    let mut days = 0;
    for earlier in 1..month {
        days += month_length(year, earlier) as u16;
    }
    days
}

impl Date {
    // None where there is no such date.
    pub fn new(year: u8, month: u8, day: u8) -> Option<Date>
        ensures { option_map date_of result ≡ existing_date year month day }
    {
        if month == 0 || month > DECEMBER || day == 0 || day > month_length(year, month) {
            return None;
        }
        Some(Date { year, month, day })
    }

    // The first of January.
    fn new_year(year: u8) -> Date
        ensures { date_of result ≡ date year 1 1 }
    {
        Date {
            year,
            month: 1,
            day: 1,
        }
    }

    // The date of a day of a year, counted from 0.
    fn in_year(year: u8, day: u16) -> Date
        requires { day < start (month_lengths (leap year)) 12 }
        ensures { date_of result ≡ date_in_year year day }
    {
        let mut rest = day;
        for month in 1..DECEMBER {
            let length = month_length(year, month) as u16;
            if rest < length {
                return Date {
                    year,
                    month,
                    day: rest as u8 + 1,
                };
            }
            rest -= length;
        }
        Date {
            year,
            month: DECEMBER,
            day: rest as u8 + 1,
        }
    }

    // The date of a day, within two centuries.
    pub fn from_day(day: u32) -> Date
        requires { day < 73050 }
        ensures { date_of result ≡ date_of_day day }
    {
        let year = year_of_day(day);
        Date::in_year(year, (day - first_day(year)) as u16)
    }

    // The number of this date, from 0 on 1 January of year 0.
    pub fn day_number(self) -> u32
        ensures { result ≡ day_number (date_of self) }
    {
        first_day(self.year) + days_before(self.year, self.month) as u32 + (self.day - 1) as u32
    }

    // The date after this one, round a number of years. The bound is the caller's: a date serves maps of one century and of two.
    pub fn next(self, years: u8) -> Date
        requires { self.year < years }
        ensures { date_of result ≡ next_date years (date_of self) }
    {
        if self.day < month_length(self.year, self.month) {
            return Date {
                year: self.year,
                month: self.month,
                day: self.day + 1,
            };
        }
        if self.month < DECEMBER {
            return Date {
                year: self.year,
                month: self.month + 1,
                day: 1,
            };
        }
        if self.year + 1 < years {
            return Date::new_year(self.year + 1);
        }
        Date::new_year(0)
    }
}
