// What the cells of a map spell.
ghost use Rattle.std.specs.Prelude.{◌<◌};

use crate::date::Date;
use crate::time_of_day::TimeOfDay;

#[derive(Clone, Copy)]
pub struct Reading {
    pub date: Date,
    pub time: TimeOfDay,
    pub weekday: u8,
    ghost in_week: { weekday < 7 },
}
