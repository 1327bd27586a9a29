// What holds, what releases, and what changes nothing.
use crate::host::*;
use std::process::Abort;
use std::test::Fail;

// HOLD 1 while held leaves the waiting second waiting.
#[test]
fn hold_while_held(rt: HostRuntime) -> Result<(), Fail> {
    let mut part = part_at(5, TWENTY_FOUR)?;
    lock(&mut part)?;
    for pulses in [0, 9, SECOND] {
        part.pulses(pulses)?;
        let before = all_of(&part)?;
        part.write(CONTROL_D, 1)?;
        expect_all(&rt, &part, before)?;
    }
    assert!(rt; part.core.boundary_waits());
    unlock(&mut part)?;
    expect_register(&rt, &part, 0, 6)
}

// HOLD 0 and deselect while released.
#[test]
fn release_while_released(rt: HostRuntime) -> Result<(), Fail> {
    let mut part = part_at(5, TWENTY_FOUR)?;
    for pulses in [0, SECOND - 1, 1] {
        part.pulses(pulses)?;
        let before = all_of(&part)?;
        part.deselect();
        expect_all(&rt, &part, before)?;
        part.write(CONTROL_D, 0)?;
        expect_all(&rt, &part, before)?;
    }
    expect_register(&rt, &part, 0, 6)
}

// Held for so many pulses from second 05 on, and then deselected.
fn deselected_after(rt: &impl Abort, pulses: u64, shown: u8) -> Result<(), Fail> {
    let mut part = part_at(5, TWENTY_FOUR)?;
    lock(&mut part)?;
    part.pulses(pulses)?;
    expect_register(rt, &part, 0, 5)?;
    expect_register(rt, &part, CONTROL_D, 1)?;
    part.deselect();
    expect_register(rt, &part, 0, shown)?;
    expect_register(rt, &part, CONTROL_D, 2)
}

const STRETCHES: [(u64, u8); 4] = [(32_767, 5), (32_768, 6), (65_536, 6), (1_048_576, 6)];

// A host that goes away while holding: the part releases, and one second of any number is applied.
#[test]
fn deselect_releases(rt: HostRuntime) -> Result<(), Fail> {
    for (pulses, shown) in STRETCHES {
        deselected_after(&rt, pulses, shown)?;
    }
    Ok(())
}

// A load while held releases; the second that waited is gone, and a new one begins.
#[test]
fn load_releases(rt: HostRuntime) -> Result<(), Fail> {
    let mut part = part_at(5, TWELVE)?;
    lock(&mut part)?;
    part.pulses(40_000)?;
    assert!(rt; part.core.boundary_waits());
    part.load(0, 6, TWENTY_FOUR)?;
    let loaded = [0, 0, 0, 0, 0, 0, 1, 0, 1, 0, 0, 0, 6, 2, 0, 4];
    expect_all(&rt, &part, (loaded, 0, 32_768, false))?;
    part.deselect();
    expect_all(&rt, &part, (loaded, 0, 32_768, false))
}
