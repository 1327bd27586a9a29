// Long runs of calls drawn from a simple generator, compared with the model after each call.
use crate::model::Model;
use byte_map::map::ByteMap;
use clock_core::clock::ClockCore;
use clock_core::setting::Setting;
use std::process::Abort;
use std::test::Fail;
use timekeeping::call::CoreCall;
use timekeeping::work::Call;

// Draws calls: the first ten kinds hold, release and give pulses, the others write and restart too.
#[derive(Drop)]
struct Draw {
    state: u64,
    kinds: u64,
}

impl Draw {
    fn call(&mut self) -> CoreCall {
        self.state = self
            .state
            .wrapping_mul(6_364_136_223_846_793_005)
            .wrapping_add(1_442_695_040_888_963_407);
        let word = self.state >> 33;
        let amount = word / 16;
        let byte = (amount % 256) as u8;
        match word.checked_rem(self.kinds).unwrap_or(0) {
            0..=4 => CoreCall::Pulses(amount % 60_000),
            5 => CoreCall::Pulses(amount % 2_000_000),
            6 | 7 => CoreCall::Hold,
            8 | 9 => CoreCall::Release,
            10 => CoreCall::Look((amount % 20) as usize),
            11 => CoreCall::Read((amount % 9) as usize),
            12 => CoreCall::Write(0, byte),
            13 => CoreCall::SetTrim(byte),
            14 => CoreCall::RestartSecond,
            _ => CoreCall::Write(0, byte % 6 * 16),
        }
    }
}

fn agrees(core: &ClockCore<ByteMap>, model: &Model) -> bool {
    core.map.shown() == model.shown()
        && core.map.cells.bytes[0] == model.seconds
        && core.trim == model.trim
        && i64::from(core.position) == model.position
        && i64::from(core.second_length) == model.length
        && core.hold == model.hold
}

fn runs_alike(rt: &impl Abort, moment: u64, trim: u8, kinds: u64) -> Result<(), Fail> {
    let mut core = ClockCore::idle(ByteMap::fresh());
    core.load(Setting {
        moment,
        weekday: 6,
        trim: u32::from(trim),
        mode: 1,
    })?;
    let mut model = Model::new(moment, 6, trim);
    let mut draw = Draw {
        state: moment,
        kinds,
    };
    for _ in 0..400 {
        let call = draw.call();
        assert_eq!(rt; call.call(&mut core).map(|_| ()), model.call(call));
        assert!(rt; agrees(&core, &model), "not as the model");
    }
    Ok(())
}

// From the middle of a day, a day's end and the cycle's end, with the strongest trims and others.
#[test]
fn the_core_runs_as_the_model(rt: HostRuntime) -> Result<(), Fail> {
    for moment in [0, 3_993_371_998, 86_300, 6_311_519_900] {
        for (trim, kinds) in [(0x3F, 10), (0x42, 10), (0x07, 12), (0x7E, 16), (0x42, 16)] {
            runs_alike(&rt, moment, trim, kinds)?;
        }
    }
    Ok(())
}
