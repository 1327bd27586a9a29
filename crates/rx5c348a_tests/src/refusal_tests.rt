// What each call refuses, by number, and that a refused call changes nothing.
use crate::host::*;
use clock_core::setting::Setting;
use refusals::Refusal;
use rx5c348a::part::Rx5c348a;
use std::process::Abort;
use std::test::Fail;

// The number of a refusal, or 0.
fn number<T: Drop>(answer: Result<T, Refusal>) -> u8 {
    answer.map_or_else(u8::from, |_| 0)
}

// Levels, and the refusal that they meet, or 0.
fn expect_refusal(
    rt: &impl Abort,
    part: &mut Rx5c348a,
    levels: u64,
    refusal: u8,
) -> Result<(), Fail> {
    let before = all_of(part)?;
    assert_eq!(rt; number(part.pins(levels)), refusal);
    if refusal != 0 {
        expect_all(rt, part, before)?;
    }
    Ok(())
}

// A part with CE and SCLK at these levels.
fn part_resting_at(levels: u64) -> Result<Rx5c348a, Fail> {
    let mut part = part_at(50_399, TWENTY_FOUR)?;
    drive(&mut part, levels & CE)?;
    drive(&mut part, levels)?;
    Ok(part)
}

const OVER_7: [u64; 6] = [8, 9, 12, 15, 1 << 32, u64::MAX];

#[test]
fn levels_over_7_are_refused(rt: HostRuntime) -> Result<(), Fail> {
    for resting in [0, SCLK, CE, CE + SCLK] {
        let mut part = part_resting_at(resting)?;
        for levels in OVER_7 {
            expect_refusal(&rt, &mut part, levels, 4)?;
        }
    }
    Ok(())
}

// Each pair of levels, and the pair with both others.
const PAIRS: [(u64, u64); 4] = [(0, CE + SCLK), (SCLK, CE), (CE, SCLK), (CE + SCLK, 0)];

// From each pair of levels, both others at once, with SI low and high.
#[test]
fn both_pins_at_once_are_refused(rt: HostRuntime) -> Result<(), Fail> {
    for (resting, both) in PAIRS {
        let mut part = part_resting_at(resting)?;
        for si in [0, 1] {
            expect_refusal(&rt, &mut part, both | si, 5)?;
            expect_refusal(&rt, &mut part, resting | si, 0)?;
        }
    }
    Ok(())
}

// Refused levels within a byte: its bits so far stay, and the byte lands whole.
#[test]
fn a_transfer_outlasts_refusals(rt: HostRuntime) -> Result<(), Fail> {
    let mut part = part_at(0, TWENTY_FOUR)?;
    raise_ce(&mut part)?;
    for byte in [0x88u8, 0x59] {
        for bit in bits(byte) {
            expect_refusal(&rt, &mut part, 12, 4)?;
            expect_refusal(&rt, &mut part, SCLK + 1, 5)?;
            clock(&mut part, bit)?;
        }
    }
    lower_ce(&mut part)?;
    expect_register(&rt, &mut part, 8, 0x59)
}

// A load of a part that is held while a boundary waits, and the refusal that it meets, or 0.
fn expect_load(rt: &impl Abort, to: Setting, refusal: u8) -> Result<(), Fail> {
    let mut part = part_at(5, TWENTY_FOUR)?;
    raise_ce(&mut part)?;
    run(&mut part, 40_000)?;
    let before = all_of(&part)?;
    assert_eq!(rt; number(part.load(to)), refusal);
    assert_eq!(rt; all_of(&part)? == before, refusal != 0);
    Ok(())
}

const LOADS: [(u64, u32, u32, u32, u8); 9] = [
    (6_311_520_000, 0, 0, 0, 1),
    (u64::MAX, 0, 0, 0, 1),
    (0, 7, 0, 0, 1),
    (0, 7, 128, 2, 1),
    (0, 0, 128, 0, 2),
    (0, 0, 0, 2, 2),
    (0, 6, u32::MAX, u32::MAX, 2),
    (6_311_519_999, 6, 127, 1, 0),
    (0, 0, 0, 0, 0),
];

// The moment and the weekday are looked at first, then trim and mode.
#[test]
fn load_refuses(rt: HostRuntime) -> Result<(), Fail> {
    for (moment, weekday, trim, mode, refusal) in LOADS {
        expect_load(
            &rt,
            Setting {
                moment,
                weekday,
                trim,
                mode,
            },
            refusal,
        )?;
    }
    Ok(())
}

// Pulses from second 05, the refusal that they meet, or 0, and the seconds after them.
fn expect_pulses(rt: &impl Abort, count: u64, refusal: u8, second: u8) -> Result<(), Fail> {
    let mut part = part_at(5, TWENTY_FOUR)?;
    let running = running_of(&part);
    assert_eq!(rt; number(part.pulses(count)), refusal);
    expect_running(rt, &part, running);
    expect_time(rt, &part, on_friday([second, 0, 0]))
}

const PULSES: [(u64, u8, u8); 5] = [
    (0, 0, 0x05),
    (1_048_576, 0, 0x37),
    (1_048_577, 3, 0x05),
    (1 << 32, 3, 0x05),
    (u64::MAX, 3, 0x05),
];

// As many pulses as a call takes are 32 seconds.
#[test]
fn pulses_refuse(rt: HostRuntime) -> Result<(), Fail> {
    for (count, refusal, second) in PULSES {
        expect_pulses(&rt, count, refusal, second)?;
    }
    Ok(())
}
