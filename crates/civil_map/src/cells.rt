// A way to write a date, a time of day and a weekday into cells.
ghost use Rattle.std.specs.Prelude.{◌≡◌, ℕ, ◌<◌, ◌≤◌, List, length, replicate, Option, bit_and, slice_index, slice_set};
ghost use Rattle.std.specs.Option.{option_map};
ghost use Rattle.register_map.specs.declared.hour_mode.HourMode.{HourMode as ModeOfHours};
ghost use Rattle.calendar.specs.Dates.{CivilDate};
ghost use Rattle.calendar.specs.Times.{ClockTime};
ghost use Rattle.calendar.specs.Moments.{cycle_of};
ghost use Rattle.calendar.specs.Fields.{Fields, Spells};
ghost use Rattle.calendar.specs.Views.{date_of, time_of, fields_read};
ghost use Rattle.civil_map.specs.Changes.{with_second, with_minute, with_hour, with_weekday, with_date, fields_spelt};

use calendar::date::Date;
use calendar::reading::Reading;
use calendar::time_of_day::TimeOfDay;
use register_map::hour_mode::HourMode;

// Each call that puts a number takes a row of fields to the row with that number in its place.
pub trait FieldCells: Copy {
    const CELLS: usize;

    // Years count from 0 and come round.
    const YEARS: u8;

    // The seconds of those years.
    const CYCLE: u64;

    ghost CELLS: { ℕ };

    ghost YEARS: { ℕ };

    ghost CYCLE: { ℕ };

    // The used bits of each cell.
    ghost used: { List ℕ };

    // The row of cells that fields are written in.
    ghost written: { ModeOfHours → Fields → List ℕ };

    // The fields that a row spells, if it does.
    ghost read: { ModeOfHours → List ℕ → Option Fields };

    ghost cells: { Self → List ℕ };

    // What a row's cells spell, one by one.
    ghost time_in: { ModeOfHours → List ℕ → Option ClockTime };

    ghost date_in: { List ℕ → Option CivilDate };

    ghost weekday_in: { List ℕ → ℕ };

    // Zeros.
    fn zeros() -> Self
        ensures { cells result ≡ replicate CELLS 0 };

    fn row(mode: HourMode, reading: Reading) -> Self
        requires { reading.date.year < YEARS }
        ensures { cells result ≡ written mode (fields_read reading) };

    fn get(&self, cell: usize) -> u8
        requires { cell < CELLS }
        ensures { result ≡ slice_index (cells self.now) cell };

    // Unused bits are cleared.
    fn put(&mut self, cell: usize, byte: u8)
        requires { cell < CELLS }
        ensures { cells self.new ≡ slice_set (cells self.old) cell (bit_and byte (slice_index used cell)) };

    fn time(&self, mode: HourMode) -> Option<TimeOfDay>
        ensures { option_map time_of result ≡ time_in mode (cells self.now) };

    fn date(&self) -> Option<Date>
        ensures { option_map date_of result ≡ date_in (cells self.now) };

    // The weekday cell as it stands, over 6 too: whether it is a weekday is told once, in the map.
    fn weekday(&self) -> u8
        ensures { result ≡ weekday_in (cells self.now) };

    fn put_second(&mut self, second: u8)
        requires { second < 60 }
        ensures { (m : ModeOfHours) (f : Fields) → cells self.old ≡ written m f → cells self.new ≡ written m (with_second second f) };

    fn put_minute(&mut self, minute: u8)
        requires { minute < 60 }
        ensures { (m : ModeOfHours) (f : Fields) → cells self.old ≡ written m f → cells self.new ≡ written m (with_minute minute f) };

    fn put_hour(&mut self, mode: HourMode, hour: u8)
        requires { hour < 24 }
        ensures { (f : Fields) → cells self.old ≡ written mode f → cells self.new ≡ written mode (with_hour hour f) };

    fn put_weekday(&mut self, weekday: u8)
        requires { weekday < 7 }
        ensures { (m : ModeOfHours) (f : Fields) → cells self.old ≡ written m f → cells self.new ≡ written m (with_weekday weekday f) };

    fn put_date(&mut self, date: Date)
        requires { date.year < YEARS }
        ensures { (m : ModeOfHours) (f : Fields) → cells self.old ≡ written m f → cells self.new ≡ written m (with_date (date_of date) f) };

    ghost cycled: { CYCLE ≡ cycle_of YEARS };

    ghost two_centuries: { YEARS ≤ 200 };

    ghost spells: { Spells YEARS CELLS used written read };

    ghost whole: { (c : Self) → length (cells c) ≡ CELLS };

    ghost reads: { (m : ModeOfHours) (c : Self) → read m (cells c) ≡ fields_spelt (time_in m (cells c)) (date_in (cells c)) (weekday_in (cells c)) };
}
