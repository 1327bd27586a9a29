// Dates and times of day from their digits.
ghost use Rattle.std.specs.Prelude.{◌≡◌, ◌<◌};
ghost use Rattle.std.specs.Option.{option_map};
ghost use Rattle.calendar.specs.Spelling.{time_spelt, date_spelt};
ghost use Rattle.calendar.specs.Views.{date_of, time_of};

use crate::date::Date;
use crate::digits::Digits;
use crate::hour_face::HourFace;
use crate::time_of_day::TimeOfDay;

impl TimeOfDay {
    // The time spelt, or none.
    pub fn spelt(
        face: HourFace,
        hours: Digits,
        minutes: Digits,
        seconds: Digits,
    ) -> Option<TimeOfDay>
        ensures { option_map time_of result ≡ time_spelt face.mode face.mark hours minutes seconds }
    {
        let hour = face.hour(hours)?;
        let minute = minutes.number()?;
        let second = seconds.number()?;
        TimeOfDay::new(hour, minute, second)
    }
}

impl Date {
    // The date spelt, or none; the digits of the year are its last two.
    pub fn spelt(century: u8, years: Digits, months: Digits, days: Digits) -> Option<Date>
        requires { century < 2 }
        ensures { option_map date_of result ≡ date_spelt century years months days }
    {
        let year = years.number()?;
        let month = months.number()?;
        let day = days.number()?;
        Date::new(100 * century + year, month, day)
    }
}
