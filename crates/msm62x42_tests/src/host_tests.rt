// The traffic of a host: HOLD, BUSY, all digits, HOLD cleared.
use crate::host::*;
use std::test::Fail;

// Dh reads 2 while released and 1 while held; the interrupt flag's bit is ignored and reads 0.
#[test]
fn busy_is_polled(rt: HostRuntime) -> Result<(), Fail> {
    let mut part = part_at(50_399, TWENTY_FOUR)?;
    expect_register(&rt, &part, CONTROL_D, 2)?;
    part.write(CONTROL_D, 5)?;
    expect_register(&rt, &part, CONTROL_D, 1)?;
    part.write(CONTROL_D, 4)?;
    expect_register(&rt, &part, CONTROL_D, 2)?;
    assert_eq!(rt; lock(&mut part)?, 0);
    expect_register(&rt, &part, CONTROL_D, 1)?;
    unlock(&mut part)?;
    expect_register(&rt, &part, CONTROL_D, 2)
}

// A second that ends during the read is seen after it.
#[test]
fn a_read_of_the_time(rt: HostRuntime) -> Result<(), Fail> {
    let mut part = part_at(50_399, TWENTY_FOUR)?;
    part.pulses(SECOND - 1)?;
    lock(&mut part)?;
    part.pulses(7)?;
    expect_digits(&rt, &part, on_friday([9, 5, 9, 5, 3, 1]))?;
    unlock(&mut part)?;
    expect_digits(&rt, &part, on_friday([0, 0, 0, 0, 4, 1]))?;
    assert_eq!(rt; all_of(&part)?.1, 6);
    Ok(())
}

// The time is set while held over a boundary: release applies the waiting second to the new time.
#[test]
fn a_waiting_second_meets_the_new_time(rt: HostRuntime) -> Result<(), Fail> {
    let mut part = part_at(50_399, TWENTY_FOUR)?;
    part.pulses(20_000)?;
    lock(&mut part)?;
    part.pulses(20_000)?;
    write_digits(&mut part, [9, 5, 9, 5, 3, 2, 1, 3, 2, 1, 9, 9, 4])?;
    expect_digits(&rt, &part, [9, 5, 9, 5, 3, 2, 1, 3, 2, 1, 9, 9, 4])?;
    unlock(&mut part)?;
    expect_digits(&rt, &part, [0, 0, 0, 0, 0, 0, 1, 0, 1, 0, 0, 0, 5])?;
    // no write begins a second anew: 7,232 pulses of the running one are over
    part.pulses(25_535)?;
    expect_register(&rt, &part, 0, 0)?;
    part.pulses(1)?;
    expect_register(&rt, &part, 0, 1)
}

// The time is set, digit by digit over a date that does not exist; the next second is the next one shown.
#[test]
fn a_new_time_runs_on(rt: HostRuntime) -> Result<(), Fail> {
    let mut part = part_at(0, TWENTY_FOUR)?;
    lock(&mut part)?;
    write_digits(&mut part, [9, 5, 9, 5, 3, 2, 8, 2, 2, 0, 0, 0, 6])?;
    unlock(&mut part)?;
    part.pulses(SECOND)?;
    expect_digits(&rt, &part, [0, 0, 0, 0, 0, 0, 9, 2, 2, 0, 0, 0, 0])
}

// Unused bits of a digit are dropped as it is written.
#[test]
fn unused_bits_read_0(rt: HostRuntime) -> Result<(), Fail> {
    let mut part = part_at(0, TWENTY_FOUR)?;
    lock(&mut part)?;
    write_digits(&mut part, [15; 13])?;
    expect_digits(&rt, &part, [15, 7, 15, 7, 15, 7, 15, 3, 15, 1, 15, 15, 7])
}
