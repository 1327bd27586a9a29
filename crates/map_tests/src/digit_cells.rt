// The digit map, cell by cell.
use crate::shown_at::at;
use crate::still::stands_still;
use digit_map::cells::DigitCells;
use digit_map::map::DigitMap;
use register_map::hour_mode::HourMode;
use register_map::map::RegisterMap;
use std::process::Abort;

fn cells_of(rt: &impl Abort, digits: [u8; 13]) -> DigitCells {
    DigitCells::from_digits(digits).expect(rt, "an unused bit")
}

// The units and tens of each hour in 12-hour mode.
const TWELVE_HOUR_DIGITS: [[u8; 2]; 24] = [
    [2, 1],
    [1, 0],
    [2, 0],
    [3, 0],
    [4, 0],
    [5, 0],
    [6, 0],
    [7, 0],
    [8, 0],
    [9, 0],
    [0, 1],
    [1, 1],
    [2, 5],
    [1, 4],
    [2, 4],
    [3, 4],
    [4, 4],
    [5, 4],
    [6, 4],
    [7, 4],
    [8, 4],
    [9, 4],
    [0, 5],
    [1, 5],
];

#[test]
fn hours_in_both_modes(rt: HostRuntime) {
    for hour in 0..24u8 {
        let mut map = DigitMap::fresh();
        let [units, tens] = TWELVE_HOUR_DIGITS[hour as usize];
        map.show(at(3600 * hour as u64, 0));
        assert!(rt; map.read(4) == units && map.read(5) == tens);
        assert!(rt; map.shown() == Some(at(3600 * hour as u64, 0)));
        map.set_hour_mode(HourMode::TwentyFour);
        map.show(at(3600 * hour as u64, 0));
        assert!(rt; map.read(4) == hour % 10 && map.read(5) == hour / 10);
    }
}

// The day, month and year cells of a date and of the next, units before tens.
const NEXT_DATES: [[u8; 12]; 7] = [
    [9, 0, 1, 0, 1, 0, 0, 1, 1, 0, 1, 0],
    [0, 3, 9, 0, 1, 0, 1, 0, 0, 1, 1, 0],
    [8, 2, 2, 0, 0, 0, 9, 2, 2, 0, 0, 0],
    [9, 2, 2, 0, 0, 0, 1, 0, 3, 0, 0, 0],
    [8, 2, 2, 0, 1, 0, 1, 0, 3, 0, 1, 0],
    [1, 3, 2, 1, 9, 0, 1, 0, 1, 0, 0, 1],
    // the century's end is the cycle's
    [1, 3, 2, 1, 9, 9, 1, 0, 1, 0, 0, 0],
];

#[test]
fn midnight_brings_the_next_date(rt: HostRuntime) {
    for [
        d,
        dd,
        m,
        mm,
        y,
        yy,
        next_d,
        next_dd,
        next_m,
        next_mm,
        next_y,
        next_yy,
    ] in NEXT_DATES {
        let mut map = DigitMap {
            cells: cells_of(&rt, [9, 5, 9, 5, 3, 2, d, dd, m, mm, y, yy, 6]),
            mode: HourMode::TwentyFour,
        };
        map.advance();
        assert!(rt;
            map.cells.digits
                == [
                    0, 0, 0, 0, 0, 0, next_d, next_dd, next_m, next_mm, next_y, next_yy, 0,
                ]
        );
    }
}

// Cells that are no code, in 24-hour mode.
const NO_CODE_IN_24_HOURS: [[u8; 13]; 10] = [
    [0, 6, 0, 0, 0, 0, 1, 0, 1, 0, 0, 0, 0],
    [10, 0, 0, 0, 0, 0, 1, 0, 1, 0, 0, 0, 0],
    [0, 0, 0, 7, 0, 0, 1, 0, 1, 0, 0, 0, 0],
    [0, 0, 0, 0, 4, 2, 1, 0, 1, 0, 0, 0, 0],
    // the afternoon's bit
    [0, 0, 0, 0, 1, 4, 1, 0, 1, 0, 0, 0, 0],
    [0, 0, 0, 0, 0, 0, 0, 0, 1, 0, 0, 0, 0],
    [0, 0, 0, 0, 0, 0, 9, 2, 2, 0, 1, 0, 0],
    [0, 0, 0, 0, 0, 0, 1, 0, 0, 0, 0, 0, 0],
    [0, 0, 0, 0, 0, 0, 1, 0, 1, 0, 0, 10, 0],
    [0, 0, 0, 0, 0, 0, 1, 0, 1, 0, 0, 0, 7],
];
// Units and tens that are no hour in 12-hour mode.
const NO_HOUR_OF_12: [[u8; 2]; 6] = [[0, 0], [0, 4], [3, 1], [3, 5], [10, 0], [2, 3]];

#[test]
fn no_code_shows_none(rt: HostRuntime) {
    for cells in NO_CODE_IN_24_HOURS {
        stands_still(&rt, cells_of(&rt, cells), HourMode::TwentyFour);
    }
    for [units, tens] in NO_HOUR_OF_12 {
        let digits = [0, 0, 0, 0, units, tens, 1, 0, 1, 0, 0, 0, 0];
        stands_still(&rt, cells_of(&rt, digits), HourMode::Twelve);
    }
    assert!(rt; DigitMap::fresh().shown() == None);
}

#[test]
fn put_clears_unused_bits(rt: HostRuntime) {
    let mut map = DigitMap::fresh();
    for cell in 0..13 {
        map.put(cell, 0xFF);
    }
    assert!(rt; map.cells.digits == [0xF, 7, 0xF, 7, 0xF, 7, 0xF, 3, 0xF, 1, 0xF, 0xF, 7]);
}

#[test]
fn a_change_of_mode_keeps_the_cells(rt: HostRuntime) {
    let cells = [0, 0, 0, 0, 1, 1, 1, 0, 1, 0, 0, 0, 0];
    let mut map = DigitMap {
        cells: DigitCells { digits: cells },
        mode: HourMode::TwentyFour,
    };
    assert!(rt; map.shown() == Some(at(11 * 3600, 0)));
    map.show(at(23 * 3600, 0));
    map.set_hour_mode(HourMode::Twelve);
    assert!(rt; map.cells.digits == [0, 0, 0, 0, 3, 2, 1, 0, 1, 0, 0, 0, 0]);
    assert!(rt; map.shown() == None);
}
