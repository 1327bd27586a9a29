// Readings from and to what a map shows, and the weekday after theirs.
ghost use Rattle.std.specs.Prelude.{◌≡◌, ◌<◌};
ghost use Rattle.register_map.specs.Chart.{weekday_after};
ghost use Rattle.calendar.specs.Fields.{shown_of, fields_of};
ghost use Rattle.calendar.specs.Views.{fields_read};

use crate::moments::{date_and_time, moment_at};
use crate::reading::Reading;
use register_map::shown::Shown;

const DAYS_OF_A_WEEK: u8 = 7;

// By name: the one way has limits that no From can ask.
impl Reading {
    // The date, time of day and weekday of a moment within two centuries.
    pub fn of(at: Shown) -> Reading
        requires { (at.moment < 6311520000) × (at.weekday < 7) }
        ensures { fields_read result ≡ fields_of at }
    {
        let (date, time) = date_and_time(at.moment);
        Reading {
            date,
            time,
            weekday: at.weekday,
        }
    }

    // The moment and weekday spelt.
    pub fn shown(self) -> Shown
        ensures { result ≡ shown_of (fields_read self) }
    {
        Shown {
            moment: moment_at(self.date, self.time),
            weekday: self.weekday,
        }
    }

    // 0 follows 6.
    pub fn next_weekday(self) -> u8
        ensures { result ≡ weekday_after self.weekday }
    {
        (self.weekday + 1) % DAYS_OF_A_WEEK
    }
}
