// Cores for the tests, and what they show.
use byte_map::map::ByteMap;
use clock_core::clock::ClockCore;
use register_map::hour_mode::HourMode;
use register_map::map::RegisterMap;
use register_map::shown::Shown;
use std::array;
use std::test::Fail;

// 17 July 2026, 00:00:00: 36,525 days from 1900 to 2000, and 9,694 days more.
pub(crate) const MIDNIGHT: u64 = 86_400 * (36_525 + 9_694);

pub(crate) const FRIDAY: u8 = 5;

pub(crate) const PLAIN_SECOND: u64 = 32_768;

// A map that shows a time of 17 July 2026, in seconds since midnight.
pub(crate) fn map_at(mode: HourMode, time: u32) -> ByteMap {
    let mut map = ByteMap::fresh();
    map.set_hour_mode(mode);
    map.show(Shown {
        moment: MIDNIGHT + u64::from(time % 86_400),
        weekday: FRIDAY,
    });
    map
}

// A new core over such a map.
pub(crate) fn core_at(mode: HourMode, time: u32, trim: u32) -> Result<ClockCore<ByteMap>, Fail> {
    ClockCore::make(map_at(mode, time), trim).map_err(|_| Fail::new("not made"))
}

// Pulses in calls of whole seconds and a rest.
pub(crate) fn give(core: &mut ClockCore<ByteMap>, count: u32) -> Result<(), Fail> {
    for _ in 0..count / 32_768 {
        core.pulses(PLAIN_SECOND)?;
    }
    core.pulses(u64::from(count % 32_768))?;
    Ok(())
}

// The whole seconds in so many pulses, one by one: those that begin at 0, 20 and 40 are trimmed.
pub(crate) fn whole_seconds(a: i64, value: u32, pulses: u32) -> u64 {
    let mut left = i64::from(pulses);
    for i in 0..1_000u64 {
        let trimmed = u64::from(value).wrapping_add(i) % 20 == 0;
        let length = if trimmed {
            a.wrapping_add(32_768)
        } else {
            32_768
        };
        if left < length {
            return i;
        }
        left = left.wrapping_sub(length);
    }
    1_000
}

// The seconds that the calendar has moved since a time of the day.
pub(crate) fn seconds_since(core: &ClockCore<ByteMap>, time: u32) -> Result<u64, Fail> {
    let shown = core.map.shown().ok_or("shows none")?;
    Ok(
        shown
            .moment
            .checked_sub(MIDNIGHT + u64::from(time))
            .ok_or("went back")?,
    )
}

// The seven calendar cells, read one by one.
pub(crate) fn cells_read(core: &ClockCore<ByteMap>) -> Result<[u8; 7], Fail> {
    Ok(array::try_from_fn(|cell| core.read(cell))?)
}
