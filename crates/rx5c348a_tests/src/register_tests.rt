// The registers: unused bits, what writing some of them does besides, power-on, load and halt.
use crate::host::*;
use clock_core::setting::Setting;
use rx5c348a::part::Rx5c348a;
use std::process::Abort;
use std::test::Fail;

const USED_BITS: [u8; 16] = [
    0x7F, 0x7F, 0x3F, 0x07, 0x3F, 0x9F, 0xFF, 0x7F, 0x7F, 0x3F, 0x7F, 0x7F, 0x3F, 0x00, 0xF7, 0xBF,
];

// FFh in all registers, and then 00: XSTP stays as it was, the alarms' flags are not set by a 1.
#[test]
fn unused_bits_read_0(rt: HostRuntime) -> Result<(), Fail> {
    let mut part = fresh_part();
    write_burst(&mut part, 0, &[0xFF; 16])?;
    let mut wanted = USED_BITS;
    wanted[15] = 0xBC;
    expect_registers(&rt, &part, wanted)?;
    write_burst(&mut part, 0, &[0; 16])?;
    expect_registers(&rt, &part, [0; 16])?;
    write_burst(&mut part, 0, &[0xFF; 16])?;
    wanted[15] = 0xAC;
    expect_registers(&rt, &part, wanted)
}

// Set after power-on, with both alarms at 14:00, and a second later rung: XSTP, WAFG and DAFG are set.
fn part_with_flags(rt: &impl Abort) -> Result<Rx5c348a, Fail> {
    let mut part = fresh_part();
    write_register(&mut part, 0xE, 0xE0)?;
    write_burst(&mut part, 0, &on_friday([0x59, 0x59, 0x13]))?;
    write_burst(&mut part, 8, &[0x00, 0x14, 0x20, 0x00, 0x14])?;
    run(&mut part, SECOND)?;
    expect_register(rt, &mut part, 0xF, 0x13)?;
    Ok(part)
}

// CE rises, and a boundary waits.
fn hold_over_a_boundary(part: &mut Rx5c348a) -> Result<(), Fail> {
    raise_ce(part)?;
    run(part, 40_000)
}

// A single write of which CE neither rises nor falls.
fn write_held(part: &mut Rx5c348a, address: u8, byte: u8) -> Result<(), Fail> {
    header(part, address, SINGLE_WRITE)?;
    byte_in(part, byte)
}

// So many pulses, and the time after them.
fn time_after(
    rt: &impl Abort,
    part: &mut Rx5c348a,
    pulses: u64,
    time: [u8; 3],
) -> Result<(), Fail> {
    run(part, pulses)?;
    expect_time(rt, part, on_friday(time))
}

// Writing register 0 drops the boundary that waits and begins a second; a write of another cell does neither.
#[test]
fn register_0_begins_a_second(rt: HostRuntime) -> Result<(), Fail> {
    let mut part = part_at(50_399, TWENTY_FOUR)?;
    hold_over_a_boundary(&mut part)?;
    write_held(&mut part, 1, 0x58)?;
    expect_running(&rt, &part, (7_232, 32_768, true, true));
    write_held(&mut part, 0, 0x30)?;
    expect_running(&rt, &part, (0, 32_768, true, false));
    lower_ce(&mut part)?;
    time_after(&rt, &mut part, SECOND - 1, [0x30, 0x58, 0x13])?;
    time_after(&rt, &mut part, 1, [0x31, 0x58, 0x13])
}

// Cells other than 0 written while a boundary waits: release applies it to the new time.
#[test]
fn a_waiting_second_meets_the_new_time(rt: HostRuntime) -> Result<(), Fail> {
    let mut part = part_at(50_399, TWENTY_FOUR)?;
    hold_over_a_boundary(&mut part)?;
    header(&mut part, 2, BURST_WRITE)?;
    for byte in [0x23, 0x06, 0x31, 0x12, 0x99] {
        byte_in(&mut part, byte)?;
    }
    lower_ce(&mut part)?;
    expect_time(&rt, &part, [0, 0, 0, 0, 0x01, 0x81, 0x00])?;
    expect_running(&rt, &part, (7_232, 32_768, false, false));
    Ok(())
}

// Seconds and trim, and the length of the second that a write of register 0 begins.
const LENGTHS: [(u8, u8, u32); 10] = [
    (0x00, 0x07, 32_780),
    (0x20, 0x7E, 32_764),
    (0x40, 0x3F, 32_892),
    (0x40, 0x42, 32_644),
    (0x00, 0x01, 32_768),
    (0x00, 0x41, 32_768),
    // a crystal 0.8 Hz fast, and one 5.83 Hz slow
    (0x20, 0x09, 32_784),
    (0x40, 0x46, 32_652),
    (0x01, 0x07, 32_768),
    // no such seconds
    (0x60, 0x07, 32_768),
];

fn begins(rt: &impl Abort, second: u8, trim: u8, length: u32) -> Result<(), Fail> {
    let mut part = part_at(50_399, TWENTY_FOUR)?;
    write_register(&mut part, 7, trim)?;
    expect_running(rt, &part, (0, 32_768, false, false));
    write_register(&mut part, 0, second)?;
    expect_running(rt, &part, (0, length, false, false));
    Ok(())
}

// The second that register 0 begins has its length by the trim and the time of that instant.
#[test]
fn the_length_of_a_begun_second(rt: HostRuntime) -> Result<(), Fail> {
    for (second, trim, length) in LENGTHS {
        begins(&rt, second, trim, length)?;
    }
    Ok(())
}

// All zero but XSTP; no moment is shown, so pulses change no register.
#[test]
fn power_on_stands_still(rt: HostRuntime) -> Result<(), Fail> {
    let mut part = fresh_part();
    let registers = [0, 0, 0, 0, 0, 0, 0, 0, 0, 0, 0, 0, 0, 0, 0, 0x10];
    expect_registers(&rt, &part, registers)?;
    expect_running(&rt, &part, (0, 32_768, false, false));
    expect_wires(&rt, &part, (false, false, false, OFF, 1));
    run(&mut part, SECOND + 5)?;
    expect_registers(&rt, &part, registers)?;
    expect_running(&rt, &part, (5, 32_768, false, false));
    Ok(())
}

// A load in the middle of a read, with CE and SCLK high and a boundary waiting.
fn part_loaded_in_a_read(rt: &impl Abort) -> Result<Rx5c348a, Fail> {
    let mut part = part_with_flags(rt)?;
    hold_over_a_boundary(&mut part)?;
    header(&mut part, 6, SINGLE_READ)?;
    clock(&mut part, 0)?;
    clock(&mut part, 0)?;
    expect_pins(rt, &mut part, CE + SCLK, (1, 0))?;
    part.load(Setting {
        moment: MIDNIGHT,
        weekday: FRIDAY,
        trim: 7,
        mode: TWELVE,
    })?;
    Ok(part)
}

// The pins are low, SO is off, and what waited is gone.
#[test]
fn load_drops_a_transfer(rt: HostRuntime) -> Result<(), Fail> {
    let mut part = part_loaded_in_a_read(&rt)?;
    let loaded = [0, 0, 0x12, 5, 0x17, 0x87, 0x26, 7, 0, 0, 0, 0, 0, 0, 0, 0];
    expect_registers(&rt, &part, loaded)?;
    expect_running(&rt, &part, (0, 32_780, false, false));
    expect_wires(&rt, &part, (false, false, false, OFF, 1));
    expect_pins(&rt, &mut part, 0, (OFF, 1))?;
    expect_registers(&rt, &part, loaded)?;
    raise_ce(&mut part)?;
    assert!(rt; part.awaits_header());
    Ok(())
}

// Trim, control and flags are set, and some pulses of the second are over.
fn part_before_a_halt(rt: &impl Abort) -> Result<Rx5c348a, Fail> {
    let mut part = part_with_flags(rt)?;
    write_register(&mut part, 7, 0x2A)?;
    write_register(&mut part, 0xE, 0xF7)?;
    write_register(&mut part, 0xF, 0xAF)?;
    run(&mut part, 5)?;
    Ok(part)
}

const BEFORE_A_HALT: [u8; 16] = [
    0x00, 0x00, 0x14, 0x05, 0x17, 0x87, 0x26, 0x2A, 0x00, 0x14, 0x20, 0x00, 0x14, 0, 0xF7, 0xAF,
];

const HALTED: [u8; 16] = [
    0x00, 0x00, 0x14, 0x05, 0x17, 0x87, 0x26, 0, 0x00, 0x14, 0x20, 0x00, 0x14, 0, 0, 0x10,
];

// A halt of an unselected part: XSTP is up, trim, control and the other flags are zero; the time, the alarms' times and the second stay.
#[test]
fn halt_with_ce_low(rt: HostRuntime) -> Result<(), Fail> {
    let mut part = part_before_a_halt(&rt)?;
    let running = running_of(&part);
    expect_registers(&rt, &part, BEFORE_A_HALT)?;
    halt(&mut part);
    expect_registers(&rt, &part, HALTED)?;
    expect_running(&rt, &part, running);
    assert_eq!(rt; u8::from(part.answer().intr), 1);
    Ok(())
}
