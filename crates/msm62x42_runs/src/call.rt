// The calls of the part as data.
ghost use Rattle.std.specs.Prelude.{◌≡◌};
ghost use Rattle.digit_map.specs.Cells.{digit_chart};
ghost use Rattle.clock_core.specs.Core.{CoreState};
ghost use Rattle.msm62x42.specs.Part.{seen};
ghost use Rattle.msm62x42_runs.specs.Calls.{do_call, hold_stands, part_sight};

use msm62x42::part::Msm62x42;
use refusals::Refusal;
use timekeeping::call::CoreAnswer;
use timekeeping::work::Call;

#[derive(Clone, Copy, PartialEq, Eq, Debug)]
pub enum PartCall {
    // moment, weekday and hour mode
    Load(u64, u32, u32),
    Pulses(u64),
    Read(u32),
    // address and data
    Write(u32, u32),
    Deselect,
    // a look with a buffer of so many bytes
    Look(usize),
}

impl Call<Msm62x42> for PartCall {
    type Answer = CoreAnswer;

    ghost State = { CoreState };

    ghost seen = { seen };

    ghost step = { do_call };

    ghost core = { λ s. s };

    ghost sight = { λ mode before h. part_sight mode (hold_stands before) h.call h.answer };

    ghost chart = { digit_chart };

    ghost begins = { λ _. Unit {0} };

    fn call(self, part: &mut Msm62x42) -> Result<CoreAnswer, Refusal> {
        match self {
            PartCall::Read(address) => return part.read(address).map(CoreAnswer::Byte),
            PartCall::Look(room) => {
                let mut row = [0u8; 16];
                part.look(&mut row[..room.min(16)])?;
                return Ok(CoreAnswer::Registers(row));
            }
            PartCall::Load(moment, weekday, mode) => part.load(moment, weekday, mode)?,
            PartCall::Pulses(count) => part.pulses(count)?,
            PartCall::Write(address, data) => part.write(address, data)?,
            PartCall::Deselect => part.deselect(),
        }
        Ok(CoreAnswer::Accepted)
    }

    fn keeps_time() {}
}
