// A date that exists.
ghost use Rattle.std.specs.Prelude.{◌≤◌};
ghost use Rattle.calendar.specs.Months.{month_length};

// Years count from 0, year 00 of a map's first century; months and days from 1.
#[derive(Clone, Copy, PartialEq, Eq, Debug)]
pub struct Date {
    pub year: u8,
    pub month: u8,
    pub day: u8,
    ghost from_january: { 1 ≤ month },
    ghost to_december: { month ≤ 12 },
    ghost from_first: { 1 ≤ day },
    ghost to_last: { day ≤ month_length year month },
}
