// Held stretches: what waits, what is lost, and what is read meanwhile.
use crate::cores::{cells_read, core_at, give, seconds_since, whole_seconds};
use byte_map::map::ByteMap;
use clock_core::clock::ClockCore;
use register_map::hour_mode::HourMode;
use std::process::Abort;
use std::test::Fail;

// Each looks at one thing: a test is then a short row of calls, since a long one takes long to prove.

fn expect_seconds(
    rt: &impl Abort,
    core: &ClockCore<ByteMap>,
    time: u32,
    seconds: u64,
) -> Result<(), Fail> {
    assert_eq!(rt; seconds_since(core, time)?, seconds);
    Ok(())
}

fn expect_cell(
    rt: &impl Abort,
    core: &ClockCore<ByteMap>,
    cell: usize,
    byte: u8,
) -> Result<(), Fail> {
    assert_eq!(rt; core.read(cell)?, byte);
    Ok(())
}

fn expect_cells(rt: &impl Abort, core: &ClockCore<ByteMap>, cells: [u8; 7]) -> Result<(), Fail> {
    assert_eq!(rt; cells_read(core)?, cells);
    Ok(())
}

// The position in the running second, and its length.
fn expect_second(rt: &impl Abort, core: &ClockCore<ByteMap>, position: u32, length: u32) {
    assert_eq!(rt; (core.position, core.second_length), (position, length));
}

// Held one pulse before a trimmed second of 32,644 pulses: one boundary at once, and the next 32,644 pulses later.
fn seconds_after_stretch(held_for: u32) -> Result<u64, Fail> {
    let mut core = core_at(HourMode::TwentyFour, 19, 0x42)?;
    give(&mut core, 32_767)?;
    core.hold()?;
    give(&mut core, held_for)?;
    core.release()?;
    seconds_since(&core, 19)
}

// A stretch of 32,644 pulses keeps up with the whole seconds; one pulse more loses one.
#[test]
fn the_longest_stretch_that_keeps_up(rt: HostRuntime) -> Result<(), Fail> {
    for (held_for, whole, shown) in [(0, 0, 0), (1, 1, 1), (32_644, 1, 1), (32_645, 2, 1)] {
        let pulses = held_for + 32_767;
        assert_eq!(rt; whole_seconds(-124, 19, pulses), whole);
        assert_eq!(rt; seconds_after_stretch(held_for)?, shown);
    }
    Ok(())
}

// A stretch of so many pulses from second 5 on, and the seconds that its release applies.
fn release_applies(rt: &impl Abort, pulses: u64, seconds: u64) -> Result<(), Fail> {
    let mut core = core_at(HourMode::TwentyFour, 5, 0)?;
    core.hold()?;
    core.pulses(pulses)?;
    expect_seconds(rt, &core, 5, 0)?;
    core.release()?;
    expect_seconds(rt, &core, 5, seconds)?;
    core.hold()?;
    core.release()?;
    expect_seconds(rt, &core, 5, seconds)
}

const STRETCHES: [(u64, u64); 5] = [
    (32_767, 0),
    (32_768, 1),
    (65_536, 1),
    (98_304, 1),
    (1_048_576, 1),
];

// However many boundaries a stretch crosses, release applies one.
#[test]
fn one_boundary_is_applied(rt: HostRuntime) -> Result<(), Fail> {
    for (pulses, seconds) in STRETCHES {
        release_applies(&rt, pulses, seconds)?;
    }
    Ok(())
}

// Cell after cell, with four pulses after each.
fn expect_cells_slowly(
    rt: &impl Abort,
    core: &mut ClockCore<ByteMap>,
    cells: [u8; 7],
) -> Result<(), Fail> {
    for cell in 0..7usize {
        expect_cell(rt, core, cell, cells[cell])?;
        core.pulses(4)?;
    }
    Ok(())
}

fn expect_look(rt: &impl Abort, core: &ClockCore<ByteMap>, sixteen: [u8; 16]) -> Result<(), Fail> {
    let mut buffer = [0xAAu8; 16];
    core.look(&mut buffer)?;
    assert_eq!(rt; buffer, sixteen);
    Ok(())
}

// The end of an hour, met between the reads of single cells.
#[test]
fn a_carry_is_not_seen_while_held(rt: HostRuntime) -> Result<(), Fail> {
    let mut core = core_at(HourMode::TwentyFour, 50_399, 0)?;
    core.pulses(32_760)?;
    core.hold()?;
    expect_cells_slowly(&rt, &mut core, [0x59, 0x59, 0x13, 0x05, 0x17, 0x87, 0x26])?;
    assert!(rt; core.boundary_waits());
    expect_look(
        &rt,
        &core,
        [
            0x59, 0x59, 0x13, 0x05, 0x17, 0x87, 0x26, 0, 0, 0, 0, 0, 0, 0, 0, 0,
        ],
    )?;
    core.release()?;
    expect_cells(&rt, &core, [0x00, 0x00, 0x14, 0x05, 0x17, 0x87, 0x26])
}

// Held at :59 over the boundary and so many seconds of :00.
fn held_at_59(seconds: u32) -> Result<ClockCore<ByteMap>, Fail> {
    let mut core = core_at(HourMode::TwentyFour, 59, 0x07)?;
    core.hold()?;
    give(&mut core, 32_768)?;
    give(&mut core, seconds.wrapping_mul(32_780))?;
    Ok(core)
}

// Released, the trimmed second of :00 runs on, and a plain one follows.
fn trimmed_after_release(rt: &impl Abort, core: &mut ClockCore<ByteMap>) -> Result<(), Fail> {
    core.release()?;
    expect_second(rt, core, 0, 32_780);
    core.pulses(32_779)?;
    expect_cell(rt, core, 0, 0x00)?;
    core.pulses(1)?;
    expect_cell(rt, core, 0, 0x01)?;
    expect_second(rt, core, 0, 32_768);
    Ok(())
}

// Held at :59, each second after the waiting boundary is one of :00, so a trimmed one.
#[test]
fn seconds_held_at_59_are_trimmed(rt: HostRuntime) -> Result<(), Fail> {
    for seconds in [0u32, 1, 2, 5] {
        let mut core = held_at_59(seconds)?;
        expect_second(&rt, &core, 0, 32_780);
        expect_cell(&rt, &core, 0, 0x59)?;
        trimmed_after_release(&rt, &mut core)?;
    }
    Ok(())
}

// The calendar has moved by the whole seconds in so many pulses.
fn keeps_up(
    rt: &impl Abort,
    core: &ClockCore<ByteMap>,
    pulses: u32,
    seconds: u64,
) -> Result<(), Fail> {
    assert_eq!(rt; whole_seconds(12, 59, pulses), seconds);
    expect_seconds(rt, core, 59, seconds)
}

// Held over the first boundary from :59, the second whole second is done at 65,548 pulses.
#[test]
fn a_short_stretch_at_59_keeps_up(rt: HostRuntime) -> Result<(), Fail> {
    let mut core = core_at(HourMode::TwentyFour, 59, 0x07)?;
    core.pulses(20_000)?;
    core.hold()?;
    core.pulses(20_000)?;
    core.release()?;
    core.pulses(25_547)?;
    keeps_up(&rt, &core, 65_547, 1)?;
    core.pulses(1)?;
    keeps_up(&rt, &core, 65_548, 2)
}
