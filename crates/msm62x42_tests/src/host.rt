// A host that drives the part as operating systems do, and parts for it.
use msm62x42::part::Msm62x42;
use std::process::Abort;
use std::test::Fail;

// 17 July of year 26, 00:00:00, a Friday: 9,694 days from the beginning of year 00.
pub(crate) const MIDNIGHT: u64 = 86_400 * 9_694;

pub(crate) const FRIDAY: u32 = 5;

// The digits of that date, month, year and weekday.
pub(crate) const FRIDAY_DIGITS: [u8; 7] = [7, 1, 7, 0, 6, 2, 5];

pub(crate) const SECOND: u64 = 32_768;

// Hour modes as load numbers them.
pub(crate) const TWELVE: u32 = 0;

pub(crate) const TWENTY_FOUR: u32 = 1;

pub(crate) const CONTROL_D: u32 = 0xD;

pub(crate) const CONTROL_E: u32 = 0xE;

pub(crate) const CONTROL_F: u32 = 0xF;

const HOLD: u32 = 1;

const BUSY: u8 = 2;

const IRQ_FLAG: u32 = 4;

// A part that was loaded with a time of that day, in seconds since midnight.
pub(crate) fn part_at(time: u32, mode: u32) -> Result<Msm62x42, Fail> {
    let mut part = Msm62x42::power_on();
    part.load(MIDNIGHT + u64::from(time % 86_400), FRIDAY, mode)?;
    Ok(part)
}

// The thirteen digits of a time of that day.
pub(crate) fn on_friday(time: [u8; 6]) -> [u8; 13] {
    let [a, b, c, d, e, f] = time;
    let [g, h, i, j, k, l, m] = FRIDAY_DIGITS;
    [a, b, c, d, e, f, g, h, i, j, k, l, m]
}

// Sets HOLD, with the interrupt flag's bit so that a flag would stay, until BUSY reads 0; answers the tries before.
pub(crate) fn lock(part: &mut Msm62x42) -> Result<u8, Fail> {
    for tries in 0..5u8 {
        part.write(CONTROL_D, IRQ_FLAG + HOLD)?;
        if part.read(CONTROL_D)? & BUSY == 0 {
            return Ok(tries);
        }
        part.write(CONTROL_D, IRQ_FLAG)?;
    }
    Err(Fail::new("busy"))
}

pub(crate) fn unlock(part: &mut Msm62x42) -> Result<(), Fail> {
    part.write(CONTROL_D, IRQ_FLAG)?;
    Ok(())
}

// All digits, one read after the other.
pub(crate) fn read_digits(part: &Msm62x42) -> Result<[u8; 13], Fail> {
    let mut digits = [0u8; 13];
    for (digit, address) in digits.iter_mut().zip(0..13u32) {
        *digit = part.read(address)?;
    }
    Ok(digits)
}

pub(crate) fn write_digits(part: &mut Msm62x42, digits: [u8; 13]) -> Result<(), Fail> {
    for (address, digit) in (0..13u32).zip(digits) {
        part.write(address, u32::from(digit))?;
    }
    Ok(())
}

// Everything that a call could change.
pub(crate) fn all_of(part: &Msm62x42) -> Result<([u8; 16], u32, u32, bool), Fail> {
    let mut registers = [0u8; 16];
    part.look(&mut registers)?;
    Ok((
        registers,
        part.core.position,
        part.core.second_length,
        part.core.boundary_waits(),
    ))
}

// Each looks at one thing: a test is then a short row of calls, since a long one takes long to prove.

pub(crate) fn expect_register(
    rt: &impl Abort,
    part: &Msm62x42,
    address: u32,
    byte: u8,
) -> Result<(), Fail> {
    assert_eq!(rt; part.read(address)?, byte);
    Ok(())
}

pub(crate) fn expect_digits(
    rt: &impl Abort,
    part: &Msm62x42,
    digits: [u8; 13],
) -> Result<(), Fail> {
    assert_eq!(rt; read_digits(part)?, digits);
    Ok(())
}

pub(crate) fn expect_all(
    rt: &impl Abort,
    part: &Msm62x42,
    all: ([u8; 16], u32, u32, bool),
) -> Result<(), Fail> {
    assert_eq!(rt; all_of(part)?, all);
    Ok(())
}
