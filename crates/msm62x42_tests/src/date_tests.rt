// Leap years of two digits, and dates that do not exist.
use crate::host::*;
use msm62x42::part::Msm62x42;
use std::process::Abort;
use std::test::Fail;

// The digits of a date's last second.
fn at_the_end(date: [u8; 6], weekday: u8) -> [u8; 13] {
    let [a, b, c, d, e, f] = date;
    [9, 5, 9, 5, 3, 2, a, b, c, d, e, f, weekday]
}

// The digits of its first.
fn at_the_beginning(date: [u8; 6], weekday: u8) -> [u8; 13] {
    let [a, b, c, d, e, f] = date;
    [0, 0, 0, 0, 0, 0, a, b, c, d, e, f, weekday]
}

// Day, month and year of a date and of the next.
const NEXT_DATES: [[[u8; 6]; 2]; 8] = [
    [[8, 2, 2, 0, 0, 8], [9, 2, 2, 0, 0, 8]],
    [[9, 2, 2, 0, 0, 8], [1, 0, 3, 0, 0, 8]],
    [[8, 2, 2, 0, 3, 8], [1, 0, 3, 0, 3, 8]],
    [[8, 2, 2, 0, 4, 8], [9, 2, 2, 0, 4, 8]],
    [[9, 2, 2, 0, 4, 8], [1, 0, 3, 0, 4, 8]],
    [[8, 2, 2, 0, 8, 8], [9, 2, 2, 0, 8, 8]],
    [[9, 2, 2, 0, 8, 8], [1, 0, 3, 0, 8, 8]],
    [[0, 3, 1, 1, 3, 8], [1, 0, 2, 1, 3, 8]],
];

// Writes all digits while held.
fn set(part: &mut Msm62x42, digits: [u8; 13]) -> Result<(), Fail> {
    lock(part)?;
    write_digits(part, digits)?;
    unlock(part)
}

// One second on, and the digits then.
fn expect_next(rt: &impl Abort, part: &mut Msm62x42, digits: [u8; 13]) -> Result<(), Fail> {
    part.pulses(SECOND)?;
    expect_digits(rt, part, digits)
}

#[test]
fn years_80_84_and_88_are_leap(rt: HostRuntime) -> Result<(), Fail> {
    for [date, next] in NEXT_DATES {
        let mut part = part_at(0, TWENTY_FOUR)?;
        set(&mut part, at_the_end(date, 3))?;
        expect_next(&rt, &mut part, at_the_beginning(next, 4))?;
    }
    Ok(())
}

// 29 February and 31 November of year 83.
const NO_DATES: [[u8; 6]; 2] = [[9, 2, 2, 0, 3, 8], [1, 3, 1, 1, 3, 8]];

// The digits of no date stay as written, and the calendar goes on once a date that exists is written.
fn stands(rt: &impl Abort, digits: [u8; 13]) -> Result<(), Fail> {
    let mut part = part_at(0, TWENTY_FOUR)?;
    set(&mut part, digits)?;
    for _ in 0..3u8 {
        expect_next(rt, &mut part, digits)?;
    }
    set(&mut part, at_the_end([8, 2, 2, 0, 3, 8], 3))?;
    expect_next(rt, &mut part, at_the_beginning([1, 0, 3, 0, 3, 8], 4))
}

// No carry puts one right.
#[test]
fn dates_that_do_not_exist_stand(rt: HostRuntime) -> Result<(), Fail> {
    for date in NO_DATES {
        stands(&rt, at_the_end(date, 3))?;
        stands(&rt, at_the_beginning(date, 3))?;
    }
    Ok(())
}
