// Times of day from and to seconds, and the time after a time.
ghost use Rattle.std.specs.Prelude.{◌≡◌, ◌<◌};
ghost use Rattle.std.specs.Option.{option_map};
ghost use Rattle.calendar.specs.Times.{existing_time, second_of_day, time_of_second, next_time};
ghost use Rattle.calendar.specs.Views.{time_of};

use crate::time_of_day::TimeOfDay;

const LAST_SECOND: u8 = 59;

const LAST_MINUTE: u8 = 59;

const LAST_HOUR: u8 = 23;

impl TimeOfDay {
    pub const MIDNIGHT: TimeOfDay = TimeOfDay {
        hour: 0,
        minute: 0,
        second: 0,
    };

    // None where there is no such time.
    pub fn new(hour: u8, minute: u8, second: u8) -> Option<TimeOfDay>
        ensures { option_map time_of result ≡ existing_time hour minute second }
    {
        if hour > LAST_HOUR || minute > LAST_MINUTE || second > LAST_SECOND {
            return None;
        }
        Some(TimeOfDay {
            hour,
            minute,
            second,
        })
    }

    // The time at a second of the day.
    pub fn from_second(second: u32) -> TimeOfDay
        requires { second < 86400 }
        ensures { time_of result ≡ time_of_second second }
    {
        TimeOfDay {
            hour: (second / 3600) as u8,
            minute: (second / 60 % 60) as u8,
            second: (second % 60) as u8,
        }
    }

    // The seconds since midnight.
    pub fn second_of_day(self) -> u32
        ensures { result ≡ second_of_day (time_of self) }
    {
        3600 * self.hour as u32 + 60 * self.minute as u32 + self.second as u32
    }

    // The time one second later; midnight follows 23:59:59.
    pub fn next(self) -> TimeOfDay
        ensures { time_of result ≡ next_time (time_of self) }
    {
        if self.second < LAST_SECOND {
            return TimeOfDay {
                hour: self.hour,
                minute: self.minute,
                second: self.second + 1,
            };
        }
        if self.minute < LAST_MINUTE {
            return TimeOfDay {
                hour: self.hour,
                minute: self.minute + 1,
                second: 0,
            };
        }
        if self.hour < LAST_HOUR {
            return TimeOfDay {
                hour: self.hour + 1,
                minute: 0,
                second: 0,
            };
        }
        TimeOfDay::MIDNIGHT
    }
}
