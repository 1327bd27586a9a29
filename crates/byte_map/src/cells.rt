// Seven packed decimal cells, one by one.
ghost use Rattle.std.specs.Prelude.{◌≡◌, ◌<◌, IsTrue, length, bit_and, slice_index, slice_set, refl};
ghost use Rattle.std.specs.Option.{option_map};
ghost use Rattle.calendar.specs.Views.{fields_read};
ghost use Rattle.civil_map.specs.Masks.{all_masked, masked_cells};
ghost use Rattle.byte_map.specs.Cells.{used_bits, number_cell, hour_cell, month_cell, time_in, date_in, row as written_row, row_read};
ghost use Rattle.byte_map.specs.RowLaws.{spells, row_spelt, years_fit};

use calendar::date::Date;
use calendar::digits::Digits;
use calendar::hour_face::HourFace;
use calendar::reading::Reading;
use calendar::time_of_day::TimeOfDay;
use civil_map::cells::FieldCells;
use civil_map::masks::all_masked;
use register_map::hour_mode::HourMode;

const SECONDS: usize = 0;

const MINUTES: usize = 1;

const HOURS: usize = 2;

const WEEKDAY: usize = 3;

const DAY: usize = 4;

const MONTH: usize = 5;

const YEAR: usize = 6;

// The used bits of each cell.
const USED_BITS: [u8; 7] = [0x7F, 0x7F, 0x3F, 0x07, 0x3F, 0x9F, 0xFF];

// Bit 7 of the month cell.
const CENTURY: u8 = 0x80;

// What the afternoon adds to the tens of the hour in 12-hour mode: 20h in the cell.
const AFTERNOON: u8 = 2;

fn number_cell(number: u8) -> u8
    requires { number < 100 }
    ensures { result ≡ number_cell number }
{
    Digits::of(number).pack()
}

// That the hour is one is asked here and where its digits are made; a type for it would carry no more.
fn hour_cell(mode: HourMode, hour: u8) -> u8
    requires { hour < 24 }
    ensures { result ≡ hour_cell mode hour }
{
    HourFace {
        mode,
        mark: AFTERNOON,
    }
    .digits(hour)
    .pack()
}

#[tactic(auto, using(crate::proofs::Keeping::month_kept))]
fn month_cell(year: u8, month: u8) -> u8
    requires { (year < 200) × (month < 13) }
    ensures value { result ≡ month_cell year month }
    ensures used { bit_and result (slice_index used_bits 5) ≡ result }
{
    CENTURY * (year / 100) + number_cell(month)
}

fn day_cell(date: Date) -> u8
    ensures value { result ≡ number_cell date.day }
    ensures within { result < 64 }
{
    number_cell(date.day)
}

// The row that a reading is written in.
#[tactic(auto, unfolding(crate::specs::Cells::row))]
fn written(mode: HourMode, reading: Reading) -> [u8; 7]
    requires { reading.date.year < 200 }
    ensures { result ≡ written_row mode (fields_read reading) }
{
    let date = reading.date;
    let time = reading.time;
    [
        number_cell(time.second),
        number_cell(time.minute),
        hour_cell(mode, time.hour),
        reading.weekday,
        day_cell(date),
        month_cell(date.year, date.month),
        number_cell(date.year % 100),
    ]
}

#[derive(Clone, Copy, PartialEq, Eq, Debug)]
pub struct ByteCells {
    pub bytes: [u8; 7],
    ghost seven: { length bytes ≡ 7 },
    ghost no_unused_bit: { IsTrue (all_masked used_bits bytes) },
}

impl ByteCells {
    // These bytes as cells, where none has an unused bit.
    pub fn from_bytes(bytes: [u8; 7]) -> Option<ByteCells>
        ensures { option_map (λ c. c.bytes) result ≡ masked_cells used_bits bytes }
    {
        if all_masked(&USED_BITS, &bytes) {
            Some(ByteCells { bytes })
        } else {
            None
        }
    }

    fn set(&mut self, at: usize, byte: u8)
        requires room { at < 7 }
        requires used { bit_and byte (slice_index used_bits at) ≡ byte }
        ensures { self.new.bytes ≡ slice_set self.old.bytes at byte }
    {
        self.bytes[at] = byte;
    }
}

impl FieldCells for ByteCells {
    const CELLS: usize = 7;

    const YEARS: u8 = 200;

    const CYCLE: u64 = 6_311_520_000;

    ghost CELLS = { 7 };

    ghost YEARS = { 200 };

    ghost CYCLE = { 6311520000 };

    ghost used = { used_bits };

    ghost written = { written_row };

    ghost read = { row_read };

    ghost cells = { λ c. c.bytes };

    ghost time_in = { λ m cells. time_in m (slice_index cells 2) (slice_index cells 1) (slice_index cells 0) };

    ghost date_in = { λ cells. date_in (slice_index cells 4) (slice_index cells 5) (slice_index cells 6) };

    ghost weekday_in = { λ cells. slice_index cells 3 };

    ghost cycled = { refl };

    ghost two_centuries = { years_fit };

    ghost spells = { spells };

    ghost whole = { λ c. c.seven };

    ghost reads = { λ m c. row_spelt m c.bytes c.seven };

    fn zeros() -> ByteCells {
        ByteCells { bytes: [0; 7] }
    }

    fn row(mode: HourMode, reading: Reading) -> ByteCells {
        ByteCells {
            bytes: written(mode, reading),
        }
    }

    fn get(&self, cell: usize) -> u8 {
        self.bytes[cell]
    }

    #[tactic(auto, using(civil_map::proofs::Masking::masked_twice))]
    fn put(&mut self, cell: usize, byte: u8) {
        self.set(cell, byte & USED_BITS[cell]);
    }

    fn time(&self, mode: HourMode) -> Option<TimeOfDay> {
        let hours = Digits::unpack(self.bytes[HOURS]);
        let minutes = Digits::unpack(self.bytes[MINUTES]);
        let seconds = Digits::unpack(self.bytes[SECONDS]);
        TimeOfDay::spelt(
            HourFace {
                mode,
                mark: AFTERNOON,
            },
            hours,
            minutes,
            seconds,
        )
    }

    fn date(&self) -> Option<Date> {
        let century = self.bytes[MONTH] / CENTURY;
        let years = Digits::unpack(self.bytes[YEAR]);
        let months = Digits::unpack(self.bytes[MONTH] % CENTURY);
        let days = Digits::unpack(self.bytes[DAY]);
        Date::spelt(century, years, months, days)
    }

    fn weekday(&self) -> u8 {
        self.bytes[WEEKDAY]
    }

    #[tactic(auto, using(crate::proofs::Keeping::second_row))]
    fn put_second(&mut self, second: u8) {
        self.set(SECONDS, number_cell(second));
    }

    #[tactic(auto, using(crate::proofs::Keeping::minute_row))]
    fn put_minute(&mut self, minute: u8) {
        self.set(MINUTES, number_cell(minute));
    }

    #[tactic(auto, using(crate::proofs::Keeping::hour_row))]
    fn put_hour(&mut self, mode: HourMode, hour: u8) {
        self.set(HOURS, hour_cell(mode, hour));
    }

    #[tactic(auto, using(crate::proofs::Keeping::weekday_row))]
    fn put_weekday(&mut self, weekday: u8) {
        self.set(WEEKDAY, weekday);
    }

    #[tactic(auto, using(crate::proofs::Keeping::date_row))]
    fn put_date(&mut self, date: Date) {
        self.set(DAY, day_cell(date));
        self.set(MONTH, month_cell(date.year, date.month));
        self.set(YEAR, number_cell(date.year % 100));
    }
}
