// Moments and the dates and times that they stand for.
ghost use Rattle.std.specs.Prelude.{◌≡◌, ◌<◌};
ghost use Rattle.calendar.specs.Moments.{civil, moment_of, civil_of};
ghost use Rattle.calendar.specs.Views.{date_of, time_of};

use crate::date::Date;
use crate::time_of_day::TimeOfDay;

const SECONDS_OF_A_DAY: u64 = 86_400;

// The seconds since the cycle began, at midnight before 1 January of year 0.
pub fn moment_at(on: Date, at: TimeOfDay) -> u64
    ensures { result ≡ moment_of (civil (date_of on) (time_of at)) }
{
    SECONDS_OF_A_DAY * on.day_number() as u64 + at.second_of_day() as u64
}

// The date and time at a moment, within two centuries.
pub fn date_and_time(moment: u64) -> (Date, TimeOfDay)
    requires { moment < 6311520000 }
    ensures { civil (date_of result.0) (time_of result.1) ≡ civil_of moment }
{
    let day = (moment / SECONDS_OF_A_DAY) as u32;
    let second = (moment % SECONDS_OF_A_DAY) as u32;
    (Date::from_day(day), TimeOfDay::from_second(second))
}
