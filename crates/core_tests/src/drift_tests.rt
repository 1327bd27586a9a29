// Pulses and seconds: the whole seconds in so many pulses, and both ends of the drift.
use crate::cores::{core_at, give, seconds_since, whole_seconds};
use register_map::hour_mode::HourMode;
use std::process::Abort;
use std::test::Fail;

#[derive(Clone, Copy)]
struct Run {
    trim: u32,
    // the trim in pulses
    a: i64,
    // the seconds value at the start
    value: u32,
    pulses: u32,
    // whole seconds
    n: i64,
    // 20 P - n (655,360 + a)
    drift: i64,
}

const RUNS: [Run; 10] = [
    // the highest drift: the last pulse but one of the longest second, at once and after twenty seconds
    Run {
        trim: 0x3F,
        a: 124,
        value: 0,
        pulses: 32_891,
        n: 0,
        drift: 657_820,
    },
    Run {
        trim: 0x3F,
        a: 124,
        value: 0,
        pulses: 688_375,
        n: 20,
        drift: 657_820,
    },
    // one pulse more ends that second
    Run {
        trim: 0x3F,
        a: 124,
        value: 0,
        pulses: 32_892,
        n: 1,
        drift: 2_356,
    },
    // the lowest: nineteen plain seconds of a slow trim, or one trimmed second of a fast one
    Run {
        trim: 0x3F,
        a: 124,
        value: 1,
        pulses: 622_592,
        n: 19,
        drift: -2_356,
    },
    Run {
        trim: 0x42,
        a: -124,
        value: 0,
        pulses: 32_644,
        n: 1,
        drift: -2_356,
    },
    // one pulse less leaves that second unfinished
    Run {
        trim: 0x42,
        a: -124,
        value: 0,
        pulses: 32_643,
        n: 0,
        drift: 652_860,
    },
    // twenty seconds have one trimmed second, so nothing is left over
    Run {
        trim: 0x07,
        a: 12,
        value: 0,
        pulses: 655_372,
        n: 20,
        drift: 0,
    },
    Run {
        trim: 0x07,
        a: 12,
        value: 0,
        pulses: 32_779,
        n: 0,
        drift: 655_580,
    },
    Run {
        trim: 0x07,
        a: 12,
        value: 0,
        pulses: 32_780,
        n: 1,
        drift: 228,
    },
    Run {
        trim: 0x7E,
        a: -4,
        value: 39,
        pulses: 65_532,
        n: 2,
        drift: -72,
    },
];

fn drift_of(run: Run) -> Option<i64> {
    let pulses = i64::from(run.pulses).checked_mul(20)?;
    let seconds = run.n.checked_mul(run.a.checked_add(655_360)?)?;
    pulses.checked_sub(seconds)
}

// The seconds that a calendar moves in a run.
fn seconds_of(run: Run) -> Result<u64, Fail> {
    let mut core = core_at(HourMode::TwentyFour, run.value, run.trim)?;
    give(&mut core, run.pulses)?;
    seconds_since(&core, run.value)
}

fn calendar_counts(rt: &impl Abort, run: Run) -> Result<(), Fail> {
    let seconds = seconds_of(run)?;
    assert_eq!(rt; i64::try_from(seconds)?, run.n);
    assert_eq!(rt; whole_seconds(run.a, run.value, run.pulses), seconds);
    assert_eq!(rt; drift_of(run), Some(run.drift));
    Ok(())
}

#[test]
fn both_ends_of_the_drift_are_reached(rt: HostRuntime) -> Result<(), Fail> {
    for run in RUNS {
        calendar_counts(&rt, run)?;
    }
    Ok(())
}
