// Thirteen cells of one digit each.
ghost use Rattle.std.specs.Prelude.{◌≡◌, ◌+◌, ◌<◌, IsTrue, length, bit_and, slice_index, slice_set, refl};
ghost use Rattle.std.specs.Option.{option_map};
ghost use Rattle.calendar.specs.Spelling.{time_spelt, date_spelt};
ghost use Rattle.calendar.specs.Digits.{digits_of, hour_digits};
ghost use Rattle.calendar.specs.Views.{fields_read};
ghost use Rattle.civil_map.specs.Masks.{all_masked, masked_cells};
ghost use Rattle.digit_map.specs.Cells.{used_bits, digits_in, digits_put, row as written_row, row_read};
ghost use Rattle.digit_map.specs.RowLaws.{spells, row_spelt, years_fit};

use calendar::date::Date;
use calendar::digits::Digits;
use calendar::hour_face::HourFace;
use calendar::reading::Reading;
use calendar::time_of_day::TimeOfDay;
use civil_map::cells::FieldCells;
use civil_map::masks::all_masked;
use register_map::hour_mode::HourMode;

// The cell of each number's units; its tens follow.
const SECONDS: usize = 0;

const MINUTES: usize = 2;

const HOURS: usize = 4;

const DAY: usize = 6;

const MONTH: usize = 8;

const YEAR: usize = 10;

const WEEKDAY: usize = 12;

// The used bits of each cell.
const USED_BITS: [u8; 13] = [0xF, 7, 0xF, 7, 0xF, 7, 0xF, 3, 0xF, 1, 0xF, 0xF, 7];

// What the afternoon adds to the tens of the hour in 12-hour mode.
const AFTERNOON: u8 = 4;

fn face(mode: HourMode) -> HourFace
    ensures { result ≡ record { mode = mode; mark = 4 } }
{
    HourFace {
        mode,
        mark: AFTERNOON,
    }
}

fn hour_digits(mode: HourMode, hour: u8) -> Digits
    requires { hour < 24 }
    ensures value { result ≡ hour_digits mode 4 hour }
    ensures units { result.units < 16 }
    ensures tens { result.tens < 8 }
{
    face(mode).digits(hour)
}

fn day_digits(date: Date) -> Digits
    ensures value { result ≡ digits_of date.day }
    ensures units { result.units < 16 }
    ensures tens { result.tens < 4 }
{
    Digits::of(date.day)
}

// The row that a reading is written in.
#[tactic(auto, unfolding(crate::specs::Cells::row))]
fn written(mode: HourMode, reading: Reading) -> [u8; 13]
    ensures { result ≡ written_row mode (fields_read reading) }
{
    let second = Digits::of(reading.time.second);
    let minute = Digits::of(reading.time.minute);
    let hour = face(mode).digits(reading.time.hour);
    let day = Digits::of(reading.date.day);
    let month = Digits::of(reading.date.month);
    let year = Digits::of(reading.date.year);
    [
        second.units,
        second.tens,
        minute.units,
        minute.tens,
        hour.units,
        hour.tens,
        day.units,
        day.tens,
        month.units,
        month.tens,
        year.units,
        year.tens,
        reading.weekday,
    ]
}

#[derive(Clone, Copy, PartialEq, Eq, Debug)]
pub struct DigitCells {
    pub digits: [u8; 13],
    ghost thirteen: { length digits ≡ 13 },
    ghost no_unused_bit: { IsTrue (all_masked used_bits digits) },
}

impl DigitCells {
    // These digits as cells, where none has an unused bit.
    pub fn from_digits(digits: [u8; 13]) -> Option<DigitCells>
        ensures { option_map (λ c. c.digits) result ≡ masked_cells used_bits digits }
    {
        if all_masked(&USED_BITS, &digits) {
            Some(DigitCells { digits })
        } else {
            None
        }
    }

    // The two digits that begin at a cell.
    fn pair(&self, units: usize) -> Digits
        requires { units < 12 }
        ensures { result ≡ digits_in self.now.digits units }
    {
        Digits {
            tens: self.digits[units + 1],
            units: self.digits[units],
        }
    }

    fn set(&mut self, at: usize, digit: u8)
        requires room { at < 13 }
        requires used { bit_and digit (slice_index used_bits at) ≡ digit }
        ensures { self.new.digits ≡ slice_set self.old.digits at digit }
    {
        self.digits[at] = digit;
    }

    fn put_pair(&mut self, cell: usize, pair: Digits)
        requires room { cell < 12 }
        requires units { bit_and pair.units (slice_index used_bits cell) ≡ pair.units }
        requires tens { bit_and pair.tens (slice_index used_bits (cell + 1)) ≡ pair.tens }
        ensures { self.new.digits ≡ digits_put self.old.digits cell pair }
    {
        self.set(cell, pair.units);
        self.set(cell + 1, pair.tens);
    }
}

impl FieldCells for DigitCells {
    const CELLS: usize = 13;

    const YEARS: u8 = 100;

    const CYCLE: u64 = 3_155_760_000;

    ghost CELLS = { 13 };

    ghost YEARS = { 100 };

    ghost CYCLE = { 3155760000 };

    ghost used = { used_bits };

    ghost written = { written_row };

    ghost read = { row_read };

    ghost cells = { λ c. c.digits };

    ghost time_in = { λ m cells. time_spelt m 4 (digits_in cells 4) (digits_in cells 2) (digits_in cells 0) };

    ghost date_in = { λ cells. date_spelt 0 (digits_in cells 10) (digits_in cells 8) (digits_in cells 6) };

    ghost weekday_in = { λ cells. slice_index cells 12 };

    ghost cycled = { refl };

    ghost two_centuries = { years_fit };

    ghost spells = { spells };

    ghost whole = { λ c. c.thirteen };

    ghost reads = { λ m c. row_spelt m c.digits c.thirteen };

    fn zeros() -> DigitCells {
        DigitCells { digits: [0; 13] }
    }

    fn row(mode: HourMode, reading: Reading) -> DigitCells {
        DigitCells {
            digits: written(mode, reading),
        }
    }

    fn get(&self, cell: usize) -> u8 {
        self.digits[cell]
    }

    #[tactic(auto, using(civil_map::proofs::Masking::masked_twice))]
    fn put(&mut self, cell: usize, byte: u8) {
        self.set(cell, byte & USED_BITS[cell]);
    }

    fn time(&self, mode: HourMode) -> Option<TimeOfDay> {
        TimeOfDay::spelt(
            face(mode),
            self.pair(HOURS),
            self.pair(MINUTES),
            self.pair(SECONDS),
        )
    }

    // In the one century.
    fn date(&self) -> Option<Date> {
        Date::spelt(0, self.pair(YEAR), self.pair(MONTH), self.pair(DAY))
    }

    fn weekday(&self) -> u8 {
        self.digits[WEEKDAY]
    }

    #[tactic(auto, using(crate::proofs::Keeping::second_row))]
    fn put_second(&mut self, second: u8) {
        self.put_pair(SECONDS, Digits::of(second));
    }

    #[tactic(auto, using(crate::proofs::Keeping::minute_row))]
    fn put_minute(&mut self, minute: u8) {
        self.put_pair(MINUTES, Digits::of(minute));
    }

    #[tactic(auto, using(crate::proofs::Keeping::hour_row))]
    fn put_hour(&mut self, mode: HourMode, hour: u8) {
        self.put_pair(HOURS, hour_digits(mode, hour));
    }

    #[tactic(auto, using(crate::proofs::Keeping::weekday_row))]
    fn put_weekday(&mut self, weekday: u8) {
        self.set(WEEKDAY, weekday);
    }

    #[tactic(auto, using(crate::proofs::Keeping::date_row))]
    fn put_date(&mut self, date: Date) {
        self.put_pair(DAY, day_digits(date));
        self.put_pair(MONTH, Digits::of(date.month));
        self.put_pair(YEAR, Digits::of(date.year));
    }
}
