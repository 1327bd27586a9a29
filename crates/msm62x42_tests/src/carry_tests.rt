// A carry through six digits, met at every pulse around a read of all thirteen.
use crate::host::*;
use msm62x42::part::Msm62x42;
use std::process::Abort;
use std::test::Fail;

const BEFORE: [u8; 6] = [9, 5, 9, 5, 3, 1];

const AFTER: [u8; 6] = [0, 0, 0, 0, 4, 1];

// 13:59:59 before the end of the second, 14:00:00 from then on.
fn digits_after(pulses: u64) -> [u8; 13] {
    on_friday(if pulses < SECOND { BEFORE } else { AFTER })
}

// Reads the digits one by one, with a pulse after each.
fn read_slowly(part: &mut Msm62x42) -> Result<[u8; 13], Fail> {
    let mut digits = [0u8; 13];
    for (digit, address) in digits.iter_mut().zip(0..13u32) {
        *digit = part.read(address)?;
        part.pulses(1)?;
    }
    Ok(digits)
}

// The digits, read so.
fn expect_slowly(rt: &impl Abort, part: &mut Msm62x42, digits: [u8; 13]) -> Result<(), Fail> {
    assert_eq!(rt; read_slowly(part)?, digits);
    Ok(())
}

// Released after a read, so many pulses after the beginning.
fn expect_after_release(rt: &impl Abort, part: &mut Msm62x42, pulses: u64) -> Result<(), Fail> {
    unlock(part)?;
    expect_digits(rt, part, digits_after(pulses))
}

fn held_after(rt: &impl Abort, pulses: u64) -> Result<(), Fail> {
    let mut part = part_at(50_399, TWENTY_FOUR)?;
    part.pulses(pulses)?;
    lock(&mut part)?;
    expect_slowly(rt, &mut part, digits_after(pulses))?;
    expect_after_release(rt, &mut part, pulses.wrapping_add(13))
}

// Held for the read alone: the digits spell the moment at which HOLD was set, and the carry is there after release.
#[test]
fn held_after_the_pulses(rt: HostRuntime) -> Result<(), Fail> {
    for k in 0..200u64 {
        held_after(&rt, SECOND - 100 + k)?;
    }
    Ok(())
}

fn held_before(rt: &impl Abort, pulses: u64) -> Result<(), Fail> {
    let mut part = part_at(50_399, TWENTY_FOUR)?;
    lock(&mut part)?;
    part.pulses(pulses)?;
    expect_slowly(rt, &mut part, digits_after(0))?;
    expect_after_release(rt, &mut part, pulses.wrapping_add(13))
}

// Held before all of them: the moment of HOLD stays, however many pulses come.
#[test]
fn held_before_the_pulses(rt: HostRuntime) -> Result<(), Fail> {
    for k in 0..200u64 {
        held_before(&rt, SECOND - 100 + k)?;
    }
    Ok(())
}

// Without HOLD such a read is torn: two digits of 13:59:59, then four of 14:00:00.
#[test]
fn released_reads_are_torn(rt: HostRuntime) -> Result<(), Fail> {
    let mut part = part_at(50_399, TWENTY_FOUR)?;
    part.pulses(SECOND - 2)?;
    expect_slowly(&rt, &mut part, on_friday([9, 5, 0, 0, 4, 1]))
}
