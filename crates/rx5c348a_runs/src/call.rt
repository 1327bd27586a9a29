// The calls of a part as data, and what they answer.
ghost use Rattle.std.specs.Prelude.{◌≡◌};
ghost use Rattle.byte_map.specs.Cells.{byte_chart};
ghost use Rattle.rx5c348a.specs.Part.{PartState, seen};
ghost use Rattle.rx5c348a_runs.specs.Calls.{call_sight, notes, work_one};
ghost use Rattle.rx5c348a_runs.specs.Start.{AtRest};

use clock_core::setting::Setting;
use refusals::Refusal;
use rx5c348a::part::Rx5c348a;
use rx5c348a::pins::PinAnswer;
use timekeeping::work::Call;

#[derive(Clone, Copy, PartialEq, Eq, Debug)]
pub enum WireCall {
    Load(Setting),
    Pulses(u64),
    Pins(u64),
    // a look with a buffer of so many bytes
    Look(usize),
}

// What an accepted call answers.
#[derive(Clone, Copy, PartialEq, Eq, Debug)]
pub enum WireAnswer {
    Accepted,
    Levels(PinAnswer),
    Registers([u8; 16]),
}

impl Call<Rx5c348a> for WireCall {
    type Answer = WireAnswer;

    ghost State = { PartState };

    ghost seen = { seen };

    ghost step = { work_one };

    ghost core = { λ p. p.file.core };

    ghost sight = { λ mode before h. call_sight mode (notes before) h.call h.answer };

    ghost chart = { byte_chart };

    ghost begins = { AtRest };

    #[tactic(auto, unfolding(crate::specs::Calls::work_one))]
    fn call(self, part: &mut Rx5c348a) -> Result<WireAnswer, Refusal> {
        match self {
            WireCall::Load(to) => part.load(to)?,
            WireCall::Pulses(count) => part.pulses(count)?,
            WireCall::Pins(levels) => return part.pins(levels).map(WireAnswer::Levels),
            WireCall::Look(room) => {
                let mut row = [0u8; 16];
                part.look(&mut row[..room.min(16)])?;
                return Ok(WireAnswer::Registers(row));
            }
        }
        Ok(WireAnswer::Accepted)
    }

    fn keeps_time() {}
}
