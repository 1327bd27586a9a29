// The edges of CE and SCLK, one by one.
use crate::host::*;
use rx5c348a::part::Rx5c348a;
use std::process::Abort;
use std::test::Fail;

// A byte of which no bit is heard, and none given.
fn unheard(rt: &impl Abort, part: &mut Rx5c348a, byte: u8) -> Result<(), Fail> {
    for bit in bits(byte) {
        assert_eq!(rt; clock(part, bit)?, (OFF, OFF));
    }
    Ok(())
}

// The eighth fall lands a written byte, and not the rise before it.
#[test]
fn a_byte_lands_at_its_eighth_fall(rt: HostRuntime) -> Result<(), Fail> {
    let mut part = part_at(0, TWENTY_FOUR)?;
    open(&mut part, 8, SINGLE_WRITE)?;
    ones(&mut part, 7)?;
    drive(&mut part, CE + SCLK + 1)?;
    expect_stands(&rt, &part, 8, 0);
    drive(&mut part, CE + 1)?;
    expect_stands(&rt, &part, 8, 0x7F);
    assert!(rt; part.awaits_header());
    Ok(())
}

// CE falls after so many bits of a written byte.
fn written_in_part(rt: &impl Abort, count: u8) -> Result<(), Fail> {
    let mut part = part_at(0, TWENTY_FOUR)?;
    let before = registers_of(&part)?;
    open(&mut part, 8, BURST_WRITE)?;
    ones(&mut part, count)?;
    expect_pins(rt, &mut part, 0, (OFF, 1))?;
    expect_registers(rt, &part, before)?;
    write_register(&mut part, 9, 0x14)?;
    expect_register(rt, &mut part, 9, 0x14)?;
    expect_register(rt, &mut part, 8, 0)
}

// CE falls within a written byte: it does not land, and the next transfer begins with a header.
#[test]
fn ce_falls_within_a_written_byte(rt: HostRuntime) -> Result<(), Fail> {
    for count in 0..8u8 {
        written_in_part(&rt, count)?;
    }
    Ok(())
}

// Of a burst, the bytes before the unfinished one have landed.
#[test]
fn ce_falls_within_a_burst(rt: HostRuntime) -> Result<(), Fail> {
    let mut part = part_at(0, TWENTY_FOUR)?;
    open(&mut part, 8, BURST_WRITE)?;
    byte_in(&mut part, 0x59)?;
    byte_in(&mut part, 0x23)?;
    ones(&mut part, 7)?;
    lower_ce(&mut part)?;
    expect_registers(
        &rt,
        &part,
        [
            0, 0, 0, 5, 0x17, 0x87, 0x26, 0, 0x59, 0x23, 0, 0, 0, 0, 0x20, 0,
        ],
    )
}

// A header that reads Eh, and as many bits more.
const READ_OF_E: [u8; 16] = [1, 1, 1, 0, 1, 1, 0, 0, 1, 1, 1, 1, 1, 1, 1, 1];

// CE falls after so many bits, with SCLK low or high.
fn ce_falls_after(rt: &impl Abort, count: usize, sclk: u64) -> Result<(), Fail> {
    let mut part = part_at(50_399, TWENTY_FOUR)?;
    raise_ce(&mut part)?;
    for bit in READ_OF_E.iter().take(count) {
        clock(&mut part, *bit)?;
    }
    drive(&mut part, CE + sclk % 4)?;
    expect_pins(rt, &mut part, sclk % 4, (OFF, 1))?;
    expect_pins(rt, &mut part, 0, (OFF, 1))?;
    expect_register(rt, &mut part, 2, 0x13)
}

// CE falls within a header, and within a read byte, with SCLK low and with SCLK high.
#[test]
fn ce_falls_within_a_header_or_a_read(rt: HostRuntime) -> Result<(), Fail> {
    for count in 0..16usize {
        ce_falls_after(&rt, count, 0)?;
        ce_falls_after(&rt, count, SCLK)?;
    }
    Ok(())
}

// With CE low nothing is heard.
#[test]
fn sclk_moves_with_ce_low(rt: HostRuntime) -> Result<(), Fail> {
    let mut part = part_at(50_399, TWENTY_FOUR)?;
    let before = all_of(&part)?;
    follow(
        &rt,
        &mut part,
        b"3120202031202020 2031203131202031 3131313131313131 0101 0",
        b"2222222222222222 2222222222222222 2222222222222222 2222 2",
    )?;
    expect_all(&rt, &part, before)?;
    expect_register(&rt, &mut part, 2, 0x13)
}

// SCLK is high as CE rises: a header begins at the fall after it, and none is awaited before.
#[test]
fn ce_rises_with_sclk_high(rt: HostRuntime) -> Result<(), Fail> {
    let mut part = part_at(0, TWENTY_FOUR)?;
    follow(&rt, &mut part, b"26", b"22")?;
    expect_wires(&rt, &part, (true, true, false, OFF, 1));
    follow(
        &rt,
        &mut part,
        b"5 64646475646464 6475647575646475 0",
        b"2 22222222222222 2222222222222222 2",
    )?;
    expect_register(&rt, &mut part, 8, 0x59)
}

// SI counts as it is at the fall: the rises before bring the opposite.
#[test]
fn si_is_taken_at_the_fall(rt: HostRuntime) -> Result<(), Fail> {
    let mut part = part_at(0, TWENTY_FOUR)?;
    follow(
        &rt,
        &mut part,
        b"4 6574747465747474 7465746565747465 0",
        b"2 2222222222222222 2222222222222222 2",
    )?;
    expect_register(&rt, &mut part, 8, 0x59)
}

// SI alone, or the same levels again, are no edge.
#[test]
fn si_alone_is_no_bit(rt: HostRuntime) -> Result<(), Fail> {
    let mut part = part_at(0, TWENTY_FOUR)?;
    follow(&rt, &mut part, b"1045445544", b"2222222222")?;
    assert!(rt; part.awaits_header());
    follow(
        &rt,
        &mut part,
        b"77676755 6644 64 64 7755 64 64 64 6475647575646475 0",
        b"22222222 2222 22 22 2222 22 22 22 2222222222222222 2",
    )?;
    expect_register(&rt, &mut part, 8, 0x59)
}

// SI is not heard while a byte is given out: a fresh header follows.
#[test]
fn si_is_not_heard_in_read_data(rt: HostRuntime) -> Result<(), Fail> {
    let mut part = part_at(50_399, TWENTY_FOUR)?;
    follow(
        &rt,
        &mut part,
        b"4 7575756475756464 7575757575757575 6464756475756464 7575757575757575 0",
        b"2 2222222222222222 0000110000000002 2222222222222222 0000001100001112 2",
    )
}

// A header of another format: nothing is heard and SO is off.
fn deaf_after(rt: &impl Abort, address: u8, format: u8) -> Result<(), Fail> {
    let mut part = part_at(50_399, TWENTY_FOUR)?;
    let before = registers_of(&part)?;
    open(&mut part, address, format)?;
    for byte in [0x88, 0x7F, 0x8C, 0x00, 0x84, 0xFF, 0x00] {
        unheard(rt, &mut part, byte)?;
    }
    expect_wires(rt, &part, (true, false, false, OFF, 1));
    expect_pins(rt, &mut part, 0, (OFF, 1))?;
    expect_registers(rt, &part, before)?;
    expect_register(rt, &mut part, 2, 0x13)
}

// After any other format nothing is heard and SO is off, until CE falls.
#[test]
fn deaf_until_ce_falls(rt: HostRuntime) -> Result<(), Fail> {
    for format in [1, 2, 3, 5, 6, 7, 9, 0xA, 0xB, 0xD, 0xE, 0xF] {
        for address in 0..16u8 {
            deaf_after(&rt, address, format)?;
        }
    }
    Ok(())
}

// The bits that a write puts into each register: of Fh, those that are only stored.
const STORED: [u8; 16] = [
    0x7F, 0x7F, 0x3F, 0x07, 0x3F, 0x9F, 0xFF, 0x7F, 0x7F, 0x3F, 0x7F, 0x7F, 0x3F, 0x00, 0xF7, 0xAC,
];

// A byte of a burst lands in its register, the address going round sixteen, and no other changes.
fn lands(
    rt: &impl Abort,
    part: &mut Rx5c348a,
    registers: &mut [u8; 16],
    place: usize,
    byte: u8,
) -> Result<(), Fail> {
    byte_in(part, byte)?;
    registers[place % 16] = byte & STORED[place % 16];
    expect_registers(rt, part, *registers)
}

#[test]
fn a_burst_write_goes_round_twice(rt: HostRuntime) -> Result<(), Fail> {
    let mut part = part_at(50_399, TWENTY_FOUR)?;
    let mut registers = registers_of(&part)?;
    open(&mut part, 0xE, BURST_WRITE)?;
    for k in 0..40u8 {
        lands(
            &rt,
            &mut part,
            &mut registers,
            14 + usize::from(k),
            k.wrapping_mul(37),
        )?;
    }
    lower_ce(&mut part)?;
    expect_registers(&rt, &part, registers)
}

// Bytes in registers 7 to Fh.
const UPPER: [u8; 9] = [0x2A, 0x30, 0x21, 0x15, 0x45, 0x09, 0, 0x34, 0x88];

#[test]
fn a_burst_read_goes_round_twice(rt: HostRuntime) -> Result<(), Fail> {
    let mut part = part_at(50_399, TWENTY_FOUR)?;
    write_burst(&mut part, 7, &UPPER)?;
    let registers = registers_of(&part)?;
    open(&mut part, 0xE, BURST_READ)?;
    for place in 14..54usize {
        expect_byte(&rt, &mut part, registers[place % 16])?;
    }
    expect_pins(&rt, &mut part, 0, (OFF, 1))
}

// 13:59:59 before the end of the second, 14:00:00 from then on.
fn time_after(pulses: u64) -> [u8; 7] {
    on_friday(if pulses < SECOND {
        [0x59, 0x59, 0x13]
    } else {
        [0x00, 0x00, 0x14]
    })
}

// All sixteen registers after as many: no trim, no alarm, 24 hours.
fn registers_after(pulses: u64) -> [u8; 16] {
    let [a, b, c, d, e, f, g] = time_after(pulses);
    [a, b, c, d, e, f, g, 0, 0, 0, 0, 0, 0, 0, 0x20, 0]
}

// A pulse of SCLK, and a pulse of the crystal after each of its levels; answers SO after the rise.
fn clock_slowly(part: &mut Rx5c348a, si: u8) -> Result<u8, Fail> {
    let (so, _) = drive(part, CE + SCLK + u64::from(si % 2))?;
    run(part, 1)?;
    drive(part, CE + u64::from(si % 2))?;
    run(part, 1)?;
    Ok(so)
}

// All sixteen registers from a burst: a header and sixteen bytes, so 272 levels, each with its pulse.
fn read_all_slowly(rt: &impl Abort, part: &mut Rx5c348a) -> Result<[u8; 16], Fail> {
    raise_ce(part)?;
    for bit in bits(BURST_READ) {
        assert_eq!(rt; clock_slowly(part, bit)?, OFF);
    }
    let mut registers = [0u8; 16];
    for register in &mut registers {
        for _ in 0..8u8 {
            let so = clock_slowly(part, 0)?;
            assert!(rt; so < 2);
            *register = (*register << 1) | so;
        }
    }
    Ok(registers)
}

const LEVELS: u64 = 272;

// A read of all that begins after so many pulses.
fn reads_one_moment(rt: &impl Abort, pulses: u64) -> Result<(), Fail> {
    let mut part = part_at(50_399, TWENTY_FOUR)?;
    run(&mut part, pulses)?;
    let registers = read_all_slowly(rt, &mut part)?;
    assert_eq!(rt; registers, registers_after(pulses));
    lower_ce(&mut part)?;
    expect_registers(rt, &part, registers_after(pulses.wrapping_add(LEVELS)))
}

// All sixteen registers, with a pulse after each level: the carry comes before the header, at each level of it and of the bytes, and after them.
// The cells still spell the moment at which CE rose.
#[test]
fn no_read_is_torn_at_any_level(rt: HostRuntime) -> Result<(), Fail> {
    for k in 0..LEVELS + 120 {
        reads_one_moment(&rt, SECOND - LEVELS - 60 + k)?;
    }
    Ok(())
}

// Cells read under one CE each belong to several moments: 59, 59 of 13 o'clock and the hour after it spell 14:59:59.
#[test]
fn reads_in_pieces_are_torn(rt: HostRuntime) -> Result<(), Fail> {
    let mut part = part_at(50_399, TWENTY_FOUR)?;
    run(&mut part, SECOND - 1)?;
    expect_register(&rt, &mut part, 0, 0x59)?;
    expect_register(&rt, &mut part, 1, 0x59)?;
    run(&mut part, 1)?;
    expect_register(&rt, &mut part, 2, 0x14)
}
