// What each call refuses, by number, and that a refused call changes nothing.
use crate::host::*;
use refusals::Refusal;
use std::process::Abort;
use std::test::Fail;

// The number of a refusal, or 0.
fn number(res: Result<(), Refusal>) -> u8 {
    res.err().map_or(0, u8::from)
}

// A load of a part that is held while a boundary waits, and the refusal that it meets, or 0.
fn expect_load(rt: &impl Abort, load: (u64, u32, u32), refusal: u8) -> Result<(), Fail> {
    let (moment, weekday, mode) = load;
    let mut part = part_at(5, TWENTY_FOUR)?;
    lock(&mut part)?;
    part.pulses(40_000)?;
    let before = all_of(&part)?;
    assert_eq!(rt; number(part.load(moment, weekday, mode)), refusal);
    assert_eq!(rt; all_of(&part)? == before, refusal != 0);
    Ok(())
}

const LOADS: [((u64, u32, u32), u8); 9] = [
    ((3_155_760_000, 0, 0), 1),
    ((u64::MAX, 0, 0), 1),
    ((0, 7, 0), 1),
    ((3_155_760_000, 7, 2), 1),
    ((0, 7, 2), 1),
    ((0, 0, 2), 2),
    ((0, 6, u32::MAX), 2),
    ((3_155_759_999, 6, 1), 0),
    ((0, 0, 0), 0),
];

// The moment and the weekday are looked at first, then the mode.
#[test]
fn load_refuses(rt: HostRuntime) -> Result<(), Fail> {
    for (load, refusal) in LOADS {
        expect_load(&rt, load, refusal)?;
    }
    Ok(())
}

fn expect_pulses(rt: &impl Abort, count: u64, refusal: u8) -> Result<(), Fail> {
    let mut part = part_at(5, TWENTY_FOUR)?;
    let before = all_of(&part)?;
    assert_eq!(rt; number(part.pulses(count)), refusal);
    assert!(rt; refusal == 0 || all_of(&part)? == before);
    Ok(())
}

const PULSES: [(u64, u8); 4] = [(0, 0), (1_048_576, 0), (1_048_577, 3), (u64::MAX, 3)];

#[test]
fn pulses_refuse(rt: HostRuntime) -> Result<(), Fail> {
    for (count, refusal) in PULSES {
        expect_pulses(&rt, count, refusal)?;
    }
    Ok(())
}

#[test]
fn read_refuses(rt: HostRuntime) -> Result<(), Fail> {
    let part = part_at(5, TWENTY_FOUR)?;
    for (address, answer) in [(0, Ok(5)), (15, Ok(4)), (16, Err(7)), (u32::MAX, Err(7))] {
        assert_eq!(rt; part.read(address).map_err(u8::from), answer);
    }
    Ok(())
}

fn expect_write(rt: &impl Abort, address: u32, data: u32, refusal: u8) -> Result<(), Fail> {
    let mut part = part_at(5, TWELVE)?;
    let before = all_of(&part)?;
    assert_eq!(rt; number(part.write(address, data)), refusal);
    assert!(rt; refusal == 0 || all_of(&part)? == before);
    Ok(())
}

const WRITES: [(u32, u32, u8); 9] = [
    (15, 15, 0),
    (14, 15, 0),
    (16, 0, 7),
    (0, 16, 7),
    (16, 16, 7),
    (13, 17, 7),
    (14, 16, 7),
    (15, 256, 7),
    (u32::MAX, u32::MAX, 7),
];

// Data over 15 is refused even where the register would ignore it.
#[test]
fn write_refuses(rt: HostRuntime) -> Result<(), Fail> {
    for (address, data, refusal) in WRITES {
        expect_write(&rt, address, data, refusal)?;
    }
    Ok(())
}
