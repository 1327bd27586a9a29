// The core alone, as a maker would use it: the end of an hour, crossed while the core is held.
#![tactic(auto)]

mod calls;
mod lines;

use byte_map::map::ByteMap;
use calls::CALLS;
use clock_core::clock::ClockCore;
use lines::{print_answer, print_call, print_core};
use register_map::hour_mode::HourMode;
use register_map::map::RegisterMap;
use register_map::shown::Shown;
use timekeeping::call::CoreAnswer;
use timekeeping::work::work_calls;

// 13:59:58 on 17 July 2026, a Friday: 36,525 days from 1900 to 2000, 9,694 days more, and the time of day.
const MOMENT: u64 = 86_400 * (36_525 + 9_694) + 50_398;

const FRIDAY: u8 = 5;

// The trim byte 07h makes every second that begins at :00, :20 or :40 longer by 12 pulses.
const TRIM: u32 = 0x07;

// A map that shows the moment in 24-hour mode.
fn map_at_the_moment() -> ByteMap {
    let mut map = ByteMap::fresh();
    map.set_hour_mode(HourMode::TwentyFour);
    map.show(Shown {
        moment: MOMENT,
        weekday: FRIDAY,
    });
    map
}

fn run(rt: &HostRuntime) -> anyhow::Result<()> {
    let mut core = ClockCore::make(map_at_the_moment(), TRIM).map_err(|refused| refused.refusal)?;
    print_core(rt, &core)?;
    let mut answers = [Ok(CoreAnswer::Accepted); CALLS.len()];
    work_calls(&mut core, &CALLS, &mut answers);
    for (call, answer) in CALLS.iter().zip(answers.iter()) {
        print_call(rt, *call)?;
        print_answer(rt, *answer)?;
    }
    print_core(rt, &core)?;
    Ok(())
}

fn main(rt: HostRuntime) -> anyhow::Result<()> {
    run(&rt)
}
