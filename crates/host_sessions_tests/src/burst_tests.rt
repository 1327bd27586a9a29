// Bursts: empty ones, and ones that come round from Fh to 0.
use crate::host::*;
use host_sessions::idle::IdleSession;
use refusals::Refusal;
use rx5c348a::part::Rx5c348a;
use rx5c348a::pins::{CE, SCLK};
use serial_transfer::phase::SerialOut;
use std::process::Abort;
use std::test::Fail;

// An empty burst read: how many bytes moved, whether a header is awaited then, and SO at a rise.
fn read_nothing(part: &mut Rx5c348a, address: u32) -> Result<(usize, bool, SerialOut), Refusal> {
    let (spent, moved) = IdleSession::new()
        .open(part)
        .burst_read(part, address, &mut []);
    let awaits = part.awaits_header();
    let rise = part.pins(CE + SCLK);
    spent.close(part).end();
    Ok((moved, awaits, rise?.so))
}

// An empty burst write, and a byte that is clocked in after it: how many bytes moved, and whether a header is awaited before that.
fn write_nothing(part: &mut Rx5c348a, address: u32, byte: u8) -> Result<(usize, bool), Refusal> {
    let (spent, moved) = IdleSession::new()
        .open(part)
        .burst_write(part, address, &[]);
    let awaits = part.awaits_header();
    let clocked = clock_bits(part, byte, 8);
    spent.close(part).end();
    clocked?;
    Ok((moved, awaits))
}

// An empty burst drives its header, and answers 0: the part is then in data.
#[test]
fn empty_bursts(rt: HostRuntime) -> Result<(), Fail> {
    let mut part = part_at(50_399)?;
    // bit 7 of 13h, the hour
    assert_eq!(rt; read_nothing(&mut part, 2)?, (0, false, SerialOut::Low));
    assert_eq!(rt; write_nothing(&mut part, 7, 0x2A)?, (0, false));
    assert_eq!(rt; byte_or_number(read_one(&mut part, 7)), Ok(0x2A));
    Ok(())
}

const COME_ROUND: [u8; 16] = [
    0x30, 0x45, 0x13, 0x05, 0x17, 0x87, 0x26, 0, 0, 0, 0, 0, 0, 0, 0x27, 0xAC,
];

// Bytes to Eh, Fh, 0 and 1, each by its register's rule.
#[test]
fn writes_come_round(rt: HostRuntime) -> Result<(), Fail> {
    let mut part = part_at(50_399)?;
    assert_eq!(rt; write_burst(&mut part, 0xE, &[0x2F, 0xFF, 0x30, 0x45]), 4);
    assert_eq!(rt; look(&part)?, COME_ROUND);
    Ok(())
}

// A burst of forty bytes from an address: the registers in turn.
fn expect_round(rt: &impl Abort, part: &mut Rx5c348a, address: u32, registers: [u8; 16]) {
    let mut buffer = [0xFFu8; 40];
    assert_eq!(rt; read_burst(part, address, &mut buffer), 40);
    for i in 0..40usize {
        assert_eq!(rt; buffer[i], registers[(address as usize % 16 + i) % 16]);
    }
}

// From every address, two and a half times round.
#[test]
fn reads_come_round(rt: HostRuntime) -> Result<(), Fail> {
    let mut part = part_at(50_399)?;
    assert_eq!(rt; write_burst(&mut part, 7, &[1, 2, 3, 4, 5, 6]), 6);
    let registers = look(&part)?;
    for address in 0..16u32 {
        expect_round(&rt, &mut part, address, registers);
    }
    assert_eq!(rt; look(&part)?, registers);
    Ok(())
}

// A burst of seventeen writes: the last byte stands where the first was.
#[test]
fn the_later_byte_stands(rt: HostRuntime) -> Result<(), Fail> {
    let mut part = part_at(50_399)?;
    let bytes = [9, 0, 0, 0, 0, 0, 0, 0, 0, 0, 1, 0, 6, 1, 0x81, 0, 8];
    assert_eq!(rt; write_burst(&mut part, 7, &bytes), 17);
    assert_eq!(rt; byte_or_number(read_one(&mut part, 7)), Ok(8));
    Ok(())
}
