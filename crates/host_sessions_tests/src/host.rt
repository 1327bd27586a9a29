// A host with a session for each call, and parts for it.
use clock_core::setting::Setting;
use host_sessions::idle::IdleSession;
use host_sessions::open::OpenSession;
use refusals::Refusal;
use rx5c348a::part::Rx5c348a;
use rx5c348a::pins::{CE, SCLK};
use serial_transfer::bits::bit_of;
use std::test::Fail;

pub(crate) const SECOND: u64 = 32_768;

// 17 July 2026, 00:00:00, a Friday: 36,525 days of the first century, and 9,694 days more.
const MIDNIGHT: u64 = 86_400 * (36_525 + 9_694);

const FRIDAY: u32 = 5;

// Registers 3 to 15 of that day in 24-hour mode: weekday and date, no trim, no alarm, control and flags.
const REST: [u8; 13] = [0x05, 0x17, 0x87, 0x26, 0, 0, 0, 0, 0, 0, 0, 0x20, 0];

pub(crate) const CONTROL: u32 = 0xE;

pub(crate) const FLAGS: u32 = 0xF;

// A part at a time of that day, in seconds since midnight, in 24-hour mode.
pub(crate) fn part_at(time: u32) -> Result<Rx5c348a, Fail> {
    let mut part = Rx5c348a::power_on();
    part.load(Setting {
        moment: MIDNIGHT + u64::from(time % 86_400),
        weekday: FRIDAY,
        trim: 0,
        mode: 1,
    })?;
    Ok(part)
}

// All registers at a time of that day.
pub(crate) fn on_friday(time: [u8; 3]) -> [u8; 16] {
    let [a, b, c] = time;
    let [d, e, f, g, h, i, j, k, l, m, n, o, p] = REST;
    [a, b, c, d, e, f, g, h, i, j, k, l, m, n, o, p]
}

// Single transfers of one session.
pub(crate) fn in_session<R, F: FnOnce(&mut OpenSession, &mut Rx5c348a) -> R>(
    part: &mut Rx5c348a,
    transfer: F,
) -> R
    requires { F.IsAlwaysCallable transfer }
{
    let mut session = IdleSession::new().open(part);
    let answer = transfer(&mut session, part);
    session.close(part).end();
    answer
}

pub(crate) fn read_one(part: &mut Rx5c348a, address: u32) -> Result<u8, Refusal> {
    in_session(part, |session, part| session.read(part, address))
}

pub(crate) fn write_one(part: &mut Rx5c348a, address: u32, byte: u8) -> Result<(), Refusal> {
    in_session(part, |session, part| session.write(part, address, byte))
}

pub(crate) fn read_burst(part: &mut Rx5c348a, address: u32, buffer: &mut [u8]) -> usize {
    let (spent, moved) = IdleSession::new()
        .open(part)
        .burst_read(part, address, buffer);
    spent.close(part).end();
    moved
}

pub(crate) fn write_burst(part: &mut Rx5c348a, address: u32, bytes: &[u8]) -> usize {
    let (spent, moved) = IdleSession::new()
        .open(part)
        .burst_write(part, address, bytes);
    spent.close(part).end();
    moved
}

// The highest `count` bits of a byte on SI, past any session.
pub(crate) fn clock_bits(part: &mut Rx5c348a, byte: u8, count: u8) -> Result<(), Refusal> {
    for place in (0..8u8).rev() {
        if 8 - place <= count {
            let si = u64::from(bit_of(byte, place));
            part.pins(CE + SCLK + si)?;
            part.pins(CE + si)?;
        }
    }
    Ok(())
}

pub(crate) fn look(part: &Rx5c348a) -> Result<[u8; 16], Refusal> {
    let mut registers = [0u8; 16];
    part.look(&mut registers)?;
    Ok(registers)
}

// Everything that a level could change, but for the transfer under way: the registers, where the second stands, and the wires.
pub(crate) fn all_of(part: &Rx5c348a) -> Result<([u8; 16], u32, bool, bool, bool), Refusal> {
    Ok((
        look(part)?,
        part.registers.core.position,
        part.registers.core.boundary_waits(),
        part.ce,
        part.sclk,
    ))
}

// The number of a refusal, or 0.
pub(crate) fn refused_with(answer: Result<(), Refusal>) -> u8 {
    answer.err().map_or(0, u8::from)
}

// The byte that is read, or a refusal's number.
pub(crate) fn byte_or_number(answer: Result<u8, Refusal>) -> Result<u8, u8> {
    answer.map_err(u8::from)
}
