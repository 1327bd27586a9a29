// Sessions opened or closed over a part that raw levels left in the middle of a transfer.
use crate::host::*;
use host_sessions::idle::IdleSession;
use refusals::Refusal;
use rx5c348a::part::Rx5c348a;
use rx5c348a::pins::{CE, SCLK};
use std::process::Abort;
use std::test::Fail;

// Opens a session on a part in any state: a header is awaited, the record has CE alone, and reads serve.
fn opens_well(rt: &impl Abort, part: &mut Rx5c348a, trim: u8) {
    let mut session = IdleSession::new().open(part);
    let awaits = part.awaits_header();
    let levels = u64::from(session.pin_record().levels);
    let read = session.read(part, 7);
    let left = u64::from(session.close(part).end().levels);
    assert!(rt; awaits);
    assert_eq!(rt; levels, CE);
    assert_eq!(rt; byte_or_number(read), Ok(trim));
    assert_eq!(rt; left, 0);
    assert!(rt; !part.ce && !part.sclk);
}

// A part with CE high and bits in: so many of a header, or a whole one and so many of a byte after it.
fn part_with_bits(
    time: u32,
    header: u8,
    header_bits: u8,
    byte: u8,
    bits: u8,
) -> Result<Rx5c348a, Fail> {
    let mut part = part_at(time)?;
    part.pins(CE)?;
    clock_bits(&mut part, header, header_bits)?;
    clock_bits(&mut part, byte, bits)?;
    Ok(part)
}

// The same, and SCLK rises with SI at a level.
fn part_with_bits_and_sclk(
    header: u8,
    header_bits: u8,
    byte: u8,
    bits: u8,
    si: u64,
) -> Result<Rx5c348a, Fail> {
    let mut part = part_with_bits(0, header, header_bits, byte, bits)?;
    part.pins(CE + SCLK + si % 2)?;
    Ok(part)
}

// Every number of bits of a header, or of a write's byte after it, with SCLK left low.
#[test]
fn opened_within_a_byte(rt: HostRuntime) -> Result<(), Fail> {
    for bits in 0..9u8 {
        opens_well(&rt, &mut part_with_bits(0, 0x78, bits, 0, 0)?, 0);
        // whole, it has landed; a part of it is dropped
        let landed = if bits == 8 { 0x55 } else { 0 };
        opens_well(&rt, &mut part_with_bits(0, 0x78, 8, 0x55, bits)?, landed);
    }
    Ok(())
}

// SCLK left high: it falls first, with SI low.
#[test]
fn opened_with_sclk_high(rt: HostRuntime) -> Result<(), Fail> {
    let mut part = part_at(0)?;
    part.pins(SCLK)?;
    opens_well(&rt, &mut part, 0);
    part.pins(SCLK)?;
    part.pins(CE + SCLK)?;
    opens_well(&rt, &mut part, 0);
    // a read under way
    opens_well(&rt, &mut part_with_bits_and_sclk(0x04, 8, 0, 0, 0)?, 0);
    Ok(())
}

// With seven bits in and SCLK high, the fall that opening begins with lands the byte, its lowest bit 0.
#[test]
fn opening_lands_a_byte(rt: HostRuntime) -> Result<(), Fail> {
    opens_well(
        &rt,
        &mut part_with_bits_and_sclk(0x78, 8, 0x55, 7, 1)?,
        0x54,
    );
    // even in the calendar: 00:00:00 becomes 00:54:00
    let mut part = part_with_bits_and_sclk(0x18, 8, 0x55, 7, 1)?;
    opens_well(&rt, &mut part, 0);
    assert_eq!(rt; look(&part)?, on_friday([0x00, 0x54, 0x00]));
    Ok(())
}

// Opening over these bits, SCLK high after them or low, changes no register.
fn opening_changes_nothing(
    rt: &impl Abort,
    header: u8,
    header_bits: u8,
    bits: u8,
    levels: u64,
) -> Result<(), Fail> {
    let mut part = part_at(50_399)?;
    write_one(&mut part, 7, 0x55)?;
    let before = look(&part)?;
    part.pins(CE)?;
    clock_bits(&mut part, header, header_bits)?;
    clock_bits(&mut part, 0xFF, bits)?;
    part.pins(CE + levels % 4)?;
    opens_well(rt, &mut part, 0x55);
    assert_eq!(rt; look(&part)?, before);
    Ok(())
}

// SCLK is high with some bits of a header in: its fall takes one more, and with seven in it makes the header whole.
// Nothing comes of it.
#[test]
fn opened_within_a_header_with_sclk_high(rt: HostRuntime) -> Result<(), Fail> {
    for header in [0x78, 0x70, 0x7C, 0x74, 0x72] {
        for bits in 0..8u8 {
            opening_changes_nothing(&rt, header, bits, 0, SCLK + 1)?;
        }
    }
    Ok(())
}

// After each number of bits of read data, from a single and a burst read at an address, SCLK low and high.
fn opened_within_data(rt: &impl Abort, header: u8) -> Result<(), Fail> {
    for bits in 0..9u8 {
        opening_changes_nothing(rt, header, 8, bits, 0)?;
        opening_changes_nothing(rt, header, 8, bits, SCLK)?;
    }
    Ok(())
}

// From every address.
#[test]
fn opened_within_read_data(rt: HostRuntime) -> Result<(), Fail> {
    for address in 0..16u8 {
        opened_within_data(&rt, 16 * address + 0xC)?;
        opened_within_data(&rt, 16 * address + 0x4)?;
    }
    Ok(())
}

// A single write but for its last fall: SCLK stays high.
fn clock_but_the_last_fall(part: &mut Rx5c348a, header: u8, byte: u8) -> Result<(), Refusal> {
    clock_bits(part, header, 8)?;
    clock_bits(part, byte, 7)?;
    part.pins(CE + SCLK + 1)?;
    Ok(())
}

// Such a write in an open session, after so many pulses in it: the registers before closing, and the levels that closing leaves.
fn closed_over(
    part: &mut Rx5c348a,
    pulses: u64,
    header: u8,
    byte: u8,
) -> Result<([u8; 16], u64), Refusal> {
    let session = IdleSession::new().open(part);
    let given = part.pulses(pulses);
    let clocked = clock_but_the_last_fall(part, header, byte);
    let before = look(part);
    let left = u64::from(session.close(part).end().levels);
    given?;
    clocked?;
    Ok((before?, left))
}

// Closing lowers SCLK first, which lands the byte, its lowest bit 0; then the part is let go.
#[test]
fn closing_lands_a_byte(rt: HostRuntime) -> Result<(), Fail> {
    let mut part = part_at(0)?;
    let closed = closed_over(&mut part, 0, 0x78, 0x55)?;
    assert_eq!(rt; closed, (on_friday([0x00, 0x00, 0x00]), 0));
    assert!(rt; !part.ce && !part.sclk && !part.registers.core.is_held());
    assert_eq!(rt; byte_or_number(read_one(&mut part, 7)), Ok(0x54));
    Ok(())
}

// The byte lands before the boundary that waits comes through: 13:59:59 becomes 13:54:59, and then 13:55:00.
#[test]
fn closing_lands_a_byte_before_a_boundary(rt: HostRuntime) -> Result<(), Fail> {
    let mut part = part_at(50_399)?;
    closed_over(&mut part, SECOND, 0x18, 0x55)?;
    assert_eq!(rt; look(&part)?, on_friday([0x00, 0x55, 0x13]));
    part.pulses(SECOND)?;
    assert_eq!(rt; look(&part)?, on_friday([0x01, 0x55, 0x13]));
    Ok(())
}

// A header of no known format leaves the part deaf, until opening wakes it.
#[test]
fn opened_over_a_deaf_part(rt: HostRuntime) -> Result<(), Fail> {
    let mut part = part_at(0)?;
    part.pins(CE)?;
    clock_bits(&mut part, 0x71, 8)?;
    clock_bits(&mut part, 0x78, 8)?;
    clock_bits(&mut part, 0x55, 8)?;
    opens_well(&rt, &mut part, 0);
    Ok(())
}

// A selected part is let go and held again, so a boundary that waits comes through.
#[test]
fn opening_again_lets_a_boundary_through(rt: HostRuntime) -> Result<(), Fail> {
    let mut part = part_at(50_399)?;
    let first = IdleSession::new().open(&mut part);
    let given = part.pulses(SECOND);
    let second = IdleSession::new().open(&mut part);
    let mut registers = [0u8; 16];
    let (spent, moved) = second.burst_read(&mut part, 0, &mut registers);
    spent.close(&mut part).end();
    first.close(&mut part).end();
    given?;
    assert_eq!(rt; moved, 16);
    assert_eq!(rt; registers, on_friday([0x00, 0x00, 0x14]));
    Ok(())
}
