// The two alarms: when they ring, and when not.
use crate::host::*;
use clock_core::setting::Setting;
use rx5c348a::part::Rx5c348a;
use std::process::Abort;
use std::test::Fail;

// 19 July 2026, 00:00:00, a Sunday.
const SUNDAY_MIDNIGHT: u64 = MIDNIGHT + 2 * 86_400;

const WAFG: u8 = 2;

const DAFG: u8 = 1;

// Preset times: the minute of the day, the days from bit 0 for Sunday on, the minute register, and the hour register
// in 12-hour and in 24-hour mode.
const PRESETS: [(u32, u8, u8, u8, u8); 6] = [
    // 00:00 a.m. on all days
    (0, 0x7F, 0x00, 0x12, 0x00),
    // 01:30 a.m. on all days
    (90, 0x7F, 0x30, 0x01, 0x01),
    // 11:59 a.m. on all days
    (719, 0x7F, 0x59, 0x11, 0x11),
    // 00:00 p.m. on Monday to Friday
    (720, 0x3E, 0x00, 0x32, 0x12),
    // 01:30 p.m. on Sunday
    (810, 0x01, 0x30, 0x21, 0x13),
    // 11:59 p.m. on Monday, Wednesday and Friday
    (1_439, 0x2A, 0x59, 0x31, 0x23),
];

// Both alarms at a minute and hour, Alarm_W on some days, and both enabled.
fn set_alarms(part: &mut Rx5c348a, mode: u32, minute: u8, hour: u8, days: u8) -> Result<(), Fail> {
    write_burst(part, 8, &[minute, hour, days, minute, hour])?;
    write_register(part, 0xE, if mode == TWELVE { 0xC0 } else { 0xE0 })
}

fn flag_if(rings: bool, flag: u8) -> u8 {
    if rings { flag } else { 0 }
}

// The flags at a preset minute.
fn flags_at(rings: bool, days: u8, weekday: u32) -> u8 {
    let on_day = (days >> (weekday % 7)) & 1 == 1;
    flag_if(rings && on_day, WAFG) | flag_if(rings, DAFG)
}

fn sunday_midnight(mode: u32) -> Setting {
    Setting {
        moment: SUNDAY_MIDNIGHT,
        weekday: 0,
        trim: 0,
        mode,
    }
}

// Runs a week from Sunday 00:00:00 on, minute by minute: the flags come up at the preset minute and at no other.
fn run_a_week(rt: &impl Abort, part: &mut Rx5c348a, preset: u32, days: u8) -> Result<(), Fail> {
    for minute in 1..10_081u32 {
        run(part, 30 * SECOND)?;
        run(part, 30 * SECOND)?;
        let flags = flags_at(minute % 1_440 == preset, days, minute / 1_440);
        expect_stands(rt, part, 0xF, flags);
        if flags != 0 {
            write_register(part, 0xF, 0)?;
        }
    }
    Ok(())
}

// A part at the beginning of that week, with both alarms set.
fn part_with_alarms(mode: u32, minute: u8, hour: u8, days: u8) -> Result<Rx5c348a, Fail> {
    let mut part = fresh_part();
    part.load(sunday_midnight(mode))?;
    set_alarms(&mut part, mode, minute, hour, days)?;
    Ok(part)
}

#[test]
fn presets_in_12_hour_mode(rt: HostRuntime) -> Result<(), Fail> {
    for (preset, days, minute, hour, _) in PRESETS {
        let mut part = part_with_alarms(TWELVE, minute, hour, days)?;
        run_a_week(&rt, &mut part, preset, days)?;
    }
    Ok(())
}

#[test]
fn presets_in_24_hour_mode(rt: HostRuntime) -> Result<(), Fail> {
    for (preset, days, minute, _, hour) in PRESETS {
        let mut part = part_with_alarms(TWENTY_FOUR, minute, hour, days)?;
        run_a_week(&rt, &mut part, preset, days)?;
    }
    Ok(())
}

// One second before 14:00:00 of that Friday, with both alarms set for then.
fn part_before_the_alarm() -> Result<Rx5c348a, Fail> {
    let mut part = part_at(50_399, TWENTY_FOUR)?;
    set_alarms(&mut part, TWENTY_FOUR, 0x00, 0x14, 0x20)?;
    Ok(part)
}

// So many pulses, and the SO and /INTR after them.
fn expect_after(
    rt: &impl Abort,
    part: &mut Rx5c348a,
    pulses: u64,
    answer: (u8, u8),
) -> Result<(), Fail> {
    run(part, pulses)?;
    expect_pins(rt, part, 0, answer)
}

// So many pulses, and Fh after them.
fn flags_after(rt: &impl Abort, part: &mut Rx5c348a, pulses: u64, flags: u8) -> Result<(), Fail> {
    run(part, pulses)?;
    expect_register(rt, part, 0xF, flags)
}

// A byte written to Fh, and the SO and /INTR after it.
fn flags_written(
    rt: &impl Abort,
    part: &mut Rx5c348a,
    byte: u8,
    answer: (u8, u8),
) -> Result<(), Fail> {
    write_register(part, 0xF, byte)?;
    expect_pins(rt, part, 0, answer)
}

// The flags come with the pulse that begins the minute, and stay.
#[test]
fn an_alarm_comes_with_the_pulse(rt: HostRuntime) -> Result<(), Fail> {
    let mut part = part_before_the_alarm()?;
    expect_after(&rt, &mut part, SECOND - 1, (OFF, 1))?;
    expect_after(&rt, &mut part, 1, (OFF, 0))?;
    flags_after(&rt, &mut part, SECOND, WAFG + DAFG)?;
    // cleared, they stay down for the rest of the minute
    flags_written(&rt, &mut part, WAFG, (OFF, 0))?;
    flags_written(&rt, &mut part, DAFG, (OFF, 1))?;
    flags_after(&rt, &mut part, 30 * SECOND, 0)
}

// Eh, and the flags that then come up.
const ENABLES: [(u8, u8); 4] = [(0x20, 0), (0x60, DAFG), (0xA0, WAFG), (0xE0, WAFG + DAFG)];

fn rings_by(rt: &impl Abort, control: u8, flags: u8) -> Result<(), Fail> {
    let mut part = part_before_the_alarm()?;
    write_register(&mut part, 0xE, control)?;
    run(&mut part, SECOND)?;
    expect_register(rt, &mut part, 0xF, flags)
}

// An alarm rings once enabled, by its own enable bit.
#[test]
fn each_alarm_has_its_enable_bit(rt: HostRuntime) -> Result<(), Fail> {
    for (control, flags) in ENABLES {
        rings_by(&rt, control, flags)?;
    }
    Ok(())
}

// Held before the alarm until its second waits.
fn part_held_over_the_alarm() -> Result<Rx5c348a, Fail> {
    let mut part = part_before_the_alarm()?;
    run(&mut part, SECOND - 1)?;
    raise_ce(&mut part)?;
    run(&mut part, 2 * SECOND)?;
    Ok(part)
}

// The boundary waits while CE is high: the call that lowers CE applies it, rings, and answers /INTR low.
#[test]
fn an_alarm_rings_at_release(rt: HostRuntime) -> Result<(), Fail> {
    let mut part = part_held_over_the_alarm()?;
    expect_time(&rt, &part, on_friday([0x59, 0x59, 0x13]))?;
    expect_pins(&rt, &mut part, CE, (OFF, 1))?;
    expect_pins(&rt, &mut part, 0, (OFF, 0))?;
    expect_time(&rt, &part, on_friday([0x00, 0x00, 0x14]))?;
    expect_register(&rt, &mut part, 0xF, WAFG + DAFG)
}

// Up to the last pulse but one of a day, from its first half minute on, 32 seconds in a call.
fn run_out_the_day(part: &mut Rx5c348a) -> Result<(), Fail> {
    for _ in 0..2_699u32 {
        run(part, 1_048_576)?;
    }
    run(part, 2 * SECOND - 1)
}

// The alarm's time is loaded, or the alarm is set for the time that is shown: no flag until it comes round again.
#[test]
fn a_load_or_an_enable_rings_nothing(rt: HostRuntime) -> Result<(), Fail> {
    let mut part = part_at(50_400, TWENTY_FOUR)?;
    set_alarms(&mut part, TWENTY_FOUR, 0x00, 0x14, 0x7F)?;
    expect_pins(&rt, &mut part, 0, (OFF, 1))?;
    flags_after(&rt, &mut part, 30 * SECOND, 0)?;
    run_out_the_day(&mut part)?;
    flags_after(&rt, &mut part, 0, 0)?;
    flags_after(&rt, &mut part, 1, WAFG + DAFG)
}

// After power-on all alarm registers agree with the cells, which are no date in 12-hour mode.
#[test]
fn power_on_rings_nothing(rt: HostRuntime) -> Result<(), Fail> {
    let mut part = fresh_part();
    set_alarms(&mut part, TWELVE, 0, 0, 0x7F)?;
    run(&mut part, SECOND)?;
    expect_register(&rt, &mut part, 0xF, 0x10)
}

// 12-hour mode, 2 in the afternoon: what stands in the alarms' hours, and the flags that then come up.
const HOURS: [(u8, u8); 3] = [(0x14, 0), (0x02, 0), (0x22, WAFG + DAFG)];

fn rings_at(rt: &impl Abort, hour: u8, flags: u8) -> Result<(), Fail> {
    let mut part = part_at(50_399, TWELVE)?;
    set_alarms(&mut part, TWELVE, 0x00, hour, 0x20)?;
    run(&mut part, SECOND)?;
    expect_register(rt, &mut part, 0xF, flags)
}

// The hour register is compared as it stands: 14 is no hour of 12-hour mode, and 22h is 2 in the afternoon.
#[test]
fn hours_are_compared_as_they_stand(rt: HostRuntime) -> Result<(), Fail> {
    for (hour, flags) in HOURS {
        rings_at(&rt, hour, flags)?;
    }
    Ok(())
}

// Disabled, set for a minute later, and Alarm_W enabled, as a host does it.
fn set_anew(part: &mut Rx5c348a) -> Result<(), Fail> {
    write_register(part, 0xE, 0x20)?;
    write_burst(part, 8, &[0x01, 0x14, 0x20])?;
    write_register(part, 0xE, 0xA0)
}

// It rings at the new time and not at the old one.
#[test]
fn an_alarm_is_set_anew(rt: HostRuntime) -> Result<(), Fail> {
    let mut part = part_before_the_alarm()?;
    set_anew(&mut part)?;
    flags_after(&rt, &mut part, SECOND, 0)?;
    expect_time(&rt, &part, on_friday([0x00, 0x00, 0x14]))?;
    run(&mut part, 30 * SECOND)?;
    flags_after(&rt, &mut part, 30 * SECOND, WAFG)?;
    expect_time(&rt, &part, on_friday([0x00, 0x01, 0x14]))
}
