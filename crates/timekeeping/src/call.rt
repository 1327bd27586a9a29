// The calls of a core as data, and what they answer.
ghost use Rattle.std.specs.Prelude.{◌≡◌};
ghost use Rattle.clock_core.specs.Core.{CoreState};
ghost use Rattle.clock_core.specs.View.{meant};
ghost use Rattle.timekeeping.specs.CoreCalls.{do_call, core_sight};

use crate::work::Call;
use clock_core::clock::ClockCore;
use refusals::Refusal;
use register_map::hour_mode::HourMode;
use register_map::map::RegisterMap;

#[derive(Clone, Copy, PartialEq, Eq, Debug)]
pub enum CoreCall {
    Pulses(u64),
    Hold,
    Release,
    Read(usize),
    Write(usize, u8),
    // a look with a buffer of so many bytes
    Look(usize),
    // what a part does to its core
    SetTrim(u8),
    SetHourMode(HourMode),
    RestartSecond,
}

// What an accepted call answers.
#[derive(Clone, Copy, PartialEq, Eq, Debug)]
pub enum CoreAnswer {
    Accepted,
    Byte(u8),
    Registers([u8; 16]),
}

impl<M: RegisterMap> Call<ClockCore<M>> for CoreCall {
    type Answer = CoreAnswer;

    ghost State = { CoreState };

    ghost seen = { meant M.RegisterMap };

    ghost step = { do_call M.RegisterMap.chart };

    ghost core = { λ s. s };

    ghost sight = { λ mode before h. core_sight M.RegisterMap.chart.count mode h.call h.answer };

    ghost chart = { M.RegisterMap.chart };

    ghost begins = { λ _. Unit {0} };

    fn call(self, core: &mut ClockCore<M>) -> Result<CoreAnswer, Refusal> {
        match self {
            CoreCall::Read(cell) => return core.read(cell).map(CoreAnswer::Byte),
            CoreCall::Look(room) => {
                let mut row = [0u8; 16];
                core.look(&mut row[..room.min(16)])?;
                return Ok(CoreAnswer::Registers(row));
            }
            CoreCall::Pulses(count) => core.pulses(count)?,
            CoreCall::Hold => core.hold()?,
            CoreCall::Release => core.release()?,
            CoreCall::Write(cell, byte) => core.write(cell, byte)?,
            CoreCall::SetTrim(byte) => core.set_trim(byte),
            CoreCall::SetHourMode(to) => core.set_hour_mode(to),
            CoreCall::RestartSecond => core.restart_second(),
        }
        Ok(CoreAnswer::Accepted)
    }

    fn keeps_time() {}
}
