// What each call refuses, by number, and that a refused call changes nothing.
use crate::cores::{MIDNIGHT, core_at, map_at};
use byte_map::map::ByteMap;
use clock_core::clock::ClockCore;
use clock_core::setting::Setting;
use refusals::Refusal;
use register_map::hour_mode::HourMode;
use register_map::map::RegisterMap;
use register_map::shown::Shown;
use std::test::Fail;
use timekeeping::call::CoreCall;
use timekeeping::work::Call;

// The number of a refusal, or 0.
fn refusal_number<T: Drop>(answer: Result<T, Refusal>) -> u8 {
    answer.err().map_or(0, u8::from)
}

fn make_number(map: ByteMap, trim: u32) -> u8 {
    refusal_number(ClockCore::make(map, trim).map_err(|refused| refused.refusal))
}

// A trim over 127 is refused before a map that shows none.
#[test]
fn make_refuses(rt: HostRuntime) {
    let showing = map_at(HourMode::TwentyFour, 0);
    let rows = [
        (showing, 127, 0),
        (showing, 128, 2),
        (showing, u32::MAX, 2),
        (ByteMap::fresh(), 0, 8),
        (ByteMap::fresh(), 128, 2),
    ];
    for (map, trim, number) in rows {
        assert_eq!(rt; make_number(map, trim), number);
    }
}

// A refused make gives the map back.
#[test]
fn make_gives_the_map_back(rt: HostRuntime) -> Result<(), Fail> {
    match ClockCore::make(map_at(HourMode::TwentyFour, 1), 128) {
        Ok(_) => Err(Fail::new("made")),
        Err(refused) => {
            assert_eq!(rt; refused.map.cells.bytes, [0x01, 0, 0, 5, 0x17, 0x87, 0x26]);
            Ok(())
        },
    }
}

#[test]
fn load_refuses(rt: HostRuntime) -> Result<(), Fail> {
    let cycle = ByteMap::CYCLE;
    let rows = [
        (cycle, 0, 0, 0, 1),
        (0, 7, 0, 0, 1),
        (cycle, 7, 128, 2, 1),
        (0, 0, 128, 0, 2),
        (0, 0, 0, 2, 2),
        (6_311_519_999, 6, 127, 1, 0),
    ];
    for (moment, weekday, trim, mode, number) in rows {
        let mut core = core_at(HourMode::TwentyFour, 0, 0)?;
        assert_eq!(rt;
            refusal_number(core.load(Setting {
                moment,
                weekday,
                trim,
                mode
            })),
            number
        );
        let kept = core.map.shown()
            == Some(Shown {
                moment: MIDNIGHT,
                weekday: 5,
            });
        assert_eq!(rt; kept, number != 0);
    }
    Ok(())
}

// The calls of a list, one after the other on one core, each with its number.
const CALLS: [(CoreCall, u8); 19] = [
    (CoreCall::Pulses(0), 0),
    (CoreCall::Pulses(1_048_576), 0),
    (CoreCall::Pulses(1_048_577), 3),
    (CoreCall::Pulses(u64::MAX), 3),
    (CoreCall::Look(0), 6),
    (CoreCall::Look(15), 6),
    (CoreCall::Look(16), 0),
    (CoreCall::Look(usize::MAX), 0),
    (CoreCall::Read(6), 0),
    (CoreCall::Read(7), 7),
    (CoreCall::Read(usize::MAX), 7),
    (CoreCall::Write(7, 0), 7),
    (CoreCall::Release, 10),
    (CoreCall::Hold, 0),
    (CoreCall::Hold, 9),
    (CoreCall::Write(6, 0x26), 0),
    (CoreCall::Release, 0),
    (CoreCall::Release, 10),
    (CoreCall::Hold, 0),
];

// Everything that a call could change.
fn all_of(core: &ClockCore<ByteMap>) -> ([u8; 7], u8, u32, u32, bool, bool) {
    (
        core.map.cells.bytes,
        core.trim,
        core.position,
        core.second_length,
        core.is_held(),
        core.boundary_waits(),
    )
}

#[test]
fn calls_refuse_and_change_nothing(rt: HostRuntime) -> Result<(), Fail> {
    let mut core = core_at(HourMode::TwentyFour, 0, 0x07)?;
    for (call, number) in CALLS {
        let before = all_of(&core);
        assert_eq!(rt; refusal_number(call.call(&mut core)), number);
        assert!(rt; number == 0 || all_of(&core) == before);
    }
    Ok(())
}

// A short buffer stays as it was, and a long one keeps its rest.
#[test]
fn look_keeps_the_rest(rt: HostRuntime) -> Result<(), Fail> {
    let core = core_at(HourMode::TwentyFour, 1, 0)?;
    let mut buffer = [0xAAu8; 20];
    assert_eq!(rt; refusal_number(core.look(&mut buffer[0..15])), 6);
    assert_eq!(rt; buffer, [0xAA; 20]);
    core.look(&mut buffer)?;
    let seen = [
        0x01, 0, 0, 5, 0x17, 0x87, 0x26, 0, 0, 0, 0, 0, 0, 0, 0, 0, 0xAA, 0xAA, 0xAA, 0xAA,
    ];
    assert_eq!(rt; buffer, seen);
    Ok(())
}
