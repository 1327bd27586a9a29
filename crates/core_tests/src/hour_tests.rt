// The twelve-hour mode over whole days.
use crate::cores::{cells_read, core_at};
use register_map::hour_mode::HourMode;
use std::test::Fail;

// The hour cell from midnight on: 12, then 1 to 11, and 20h more in the afternoon.
const HOUR_CELLS: [u8; 24] = [
    0x12, 0x01, 0x02, 0x03, 0x04, 0x05, 0x06, 0x07, 0x08, 0x09, 0x10, 0x11, 0x32, 0x21, 0x22, 0x23,
    0x24, 0x25, 0x26, 0x27, 0x28, 0x29, 0x30, 0x31,
];

// One day and the beginning of the next, in calls of thirty seconds.
#[test]
fn a_day_over_noon_and_midnight(rt: HostRuntime) -> Result<(), Fail> {
    let mut core = core_at(HourMode::Twelve, 0, 0)?;
    for hour in HOUR_CELLS {
        assert_eq!(rt;
            cells_read(&core)?,
            [0x00, 0x00, hour, 0x05, 0x17, 0x87, 0x26]
        );
        for _ in 0..120 {
            core.pulses(983_040)?;
        }
    }
    assert_eq!(rt;
        cells_read(&core)?,
        [0x00, 0x00, 0x12, 0x06, 0x18, 0x87, 0x26]
    );
    Ok(())
}

// The second before and after noon, one o'clock and midnight.
#[test]
fn hours_change_at_the_second(rt: HostRuntime) -> Result<(), Fail> {
    let changes = [
        (43_199, [0x59, 0x59, 0x11, 5, 0x17], [0, 0, 0x32, 5, 0x17]),
        (46_799, [0x59, 0x59, 0x32, 5, 0x17], [0, 0, 0x21, 5, 0x17]),
        (86_399, [0x59, 0x59, 0x31, 5, 0x17], [0, 0, 0x12, 6, 0x18]),
        (3_599, [0x59, 0x59, 0x12, 5, 0x17], [0, 0, 0x01, 5, 0x17]),
    ];
    for (time, before, after) in changes {
        let mut core = core_at(HourMode::Twelve, time, 0x3F)?;
        core.pulses(32_767)?;
        let [a, b, c, d, e, ..] = cells_read(&core)?;
        assert_eq!(rt; [a, b, c, d, e], before);
        core.pulses(1)?;
        let [a, b, c, d, e, ..] = cells_read(&core)?;
        assert_eq!(rt; [a, b, c, d, e], after);
        assert_eq!(rt; core.second_length, 32_892);
    }
    Ok(())
}
