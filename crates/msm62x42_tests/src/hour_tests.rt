// Power-on, the hour mode and the control registers' other bits.
use crate::host::*;
use msm62x42::part::Msm62x42;
use std::process::Abort;
use std::test::Fail;

// All zero but BUSY; no moment is shown, so pulses change no register.
#[test]
fn power_on_stands_still(rt: HostRuntime) -> Result<(), Fail> {
    let mut part = Msm62x42::power_on();
    let registers = [0, 0, 0, 0, 0, 0, 0, 0, 0, 0, 0, 0, 0, 2, 0, 0];
    expect_all(&rt, &part, (registers, 0, 32_768, false))?;
    part.pulses(SECOND + 5)?;
    expect_all(&rt, &part, (registers, 5, 32_768, false))
}

// After power-on a host sets 24 hours and the time.
#[test]
fn the_switch_to_24_hours(rt: HostRuntime) -> Result<(), Fail> {
    let mut part = Msm62x42::power_on();
    part.write(CONTROL_F, 4)?;
    expect_register(&rt, &part, CONTROL_F, 4)?;
    lock(&mut part)?;
    write_digits(&mut part, on_friday([9, 5, 9, 5, 2, 1]))?;
    unlock(&mut part)?;
    part.pulses(SECOND)?;
    expect_digits(&rt, &part, on_friday([0, 0, 0, 0, 3, 1]))
}

// Only bit 0 of Dh and bit 2 of Fh are taken; Eh takes nothing.
#[test]
fn other_control_bits_read_0(rt: HostRuntime) -> Result<(), Fail> {
    let mut part = Msm62x42::power_on();
    for data in 0..16u32 {
        part.write(CONTROL_D, data)?;
        part.write(CONTROL_E, data)?;
        part.write(CONTROL_F, data)?;
        expect_register(&rt, &part, CONTROL_D, if data % 2 == 1 { 1 } else { 2 })?;
        expect_register(&rt, &part, CONTROL_E, 0)?;
        expect_register(&rt, &part, CONTROL_F, if data / 4 % 2 == 1 { 4 } else { 0 })?;
    }
    Ok(())
}

// A time, its digits one pulse before the next second, and those of the next second.
const CHANGES: [(u32, [u8; 6], [u8; 6]); 3] = [
    (3_599, [9, 5, 9, 5, 2, 1], [0, 0, 0, 0, 1, 0]),
    (43_199, [9, 5, 9, 5, 1, 1], [0, 0, 0, 0, 2, 5]),
    (46_799, [9, 5, 9, 5, 2, 5], [0, 0, 0, 0, 1, 4]),
];

fn expect_change(rt: &impl Abort, time: u32, before: [u8; 6], after: [u8; 6]) -> Result<(), Fail> {
    let mut part = part_at(time, TWELVE)?;
    part.pulses(SECOND - 1)?;
    expect_digits(rt, &part, on_friday(before))?;
    part.pulses(1)?;
    expect_digits(rt, &part, on_friday(after))
}

// In 12-hour mode the half days run 12, 1 to 11; the afternoon adds 4 to the tens of hours.
#[test]
fn hours_change_at_the_second(rt: HostRuntime) -> Result<(), Fail> {
    for (time, before, after) in CHANGES {
        expect_change(&rt, time, before, after)?;
    }
    let mut part = part_at(86_399, TWELVE)?;
    part.pulses(SECOND)?;
    expect_digits(&rt, &part, [0, 0, 0, 0, 2, 1, 8, 1, 7, 0, 6, 2, 6])
}

// The mode leaves the digits: 11 in the afternoon is no hour of 24, until 12 hours are set again.
#[test]
fn the_mode_leaves_the_digits(rt: HostRuntime) -> Result<(), Fail> {
    let eleven = on_friday([0, 0, 0, 0, 1, 5]);
    let mut part = part_at(82_800, TWELVE)?;
    part.write(CONTROL_F, 4)?;
    expect_digits(&rt, &part, eleven)?;
    part.pulses(SECOND)?;
    expect_digits(&rt, &part, eleven)?;
    part.write(CONTROL_F, 0)?;
    expect_digits(&rt, &part, eleven)?;
    part.pulses(SECOND)?;
    expect_digits(&rt, &part, on_friday([1, 0, 0, 0, 1, 5]))
}

// Midnight written as hour 00 is no hour of 12: the calendar stands until 12 is written.
#[test]
fn hour_00_stands_in_12_hour_mode(rt: HostRuntime) -> Result<(), Fail> {
    let mut part = part_at(0, TWELVE)?;
    part.write(4, 0)?;
    part.write(5, 0)?;
    part.pulses(3 * SECOND)?;
    expect_digits(&rt, &part, on_friday([0, 0, 0, 0, 0, 0]))?;
    part.write(4, 2)?;
    part.write(5, 1)?;
    part.pulses(SECOND)?;
    expect_digits(&rt, &part, on_friday([1, 0, 0, 0, 2, 1]))
}
