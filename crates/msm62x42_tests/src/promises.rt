// What the calls of the traits promise, said of a 62X42.
ghost use Rattle.std.specs.Prelude.{◌≡◌, ◌++◌, List};
ghost use Rattle.digit_map.specs.Cells.{digit_chart};
ghost use Rattle.clock_core.specs.Core.{CoreState};
ghost use Rattle.msm62x42.specs.Part.{seen, look_part};
ghost use Rattle.msm62x42_runs.specs.Calls.{do_call, part_machine};
ghost use Rattle.msm62x42_runs.specs.declared.call.PartCall.{PartCall as CallOfPart};
ghost use Rattle.timekeeping.specs.Logs.{state_after, log_of};
ghost use Rattle.timekeeping.specs.Worked.{calls_worked, worked};
ghost use Rattle.timekeeping.specs.Law.{KeepsTime};

use msm62x42::part::Msm62x42;
use msm62x42_runs::call::PartCall;
use refusals::Refusal;
use timekeeping::call::CoreAnswer;
use timekeeping::work::{Call, work_calls};

pub fn look_at_part(part: &Msm62x42, buffer: &mut [u8]) -> Result<(), Refusal>
    ensures { (result, buffer.new) ≡ look_part (seen part.now) buffer.old }
{
    part.look(buffer)
}

pub fn call_part(part: &mut Msm62x42, call: PartCall) -> Result<CoreAnswer, Refusal>
    ensures { (result, seen part.new) ≡ do_call (seen part.old) call }
{
    call.call(part)
}

pub fn work_part_calls(
    part: &mut Msm62x42,
    calls: &[PartCall],
    answers: &mut [Result<CoreAnswer, Refusal>],
) -> usize
    ensures answers { (result, seen part.new, answers.new)
        ≡ worked part_machine (seen part.old) calls.now answers.old }
    ensures law { KeepsTime part_machine digit_chart (seen part.old)
        (calls_worked calls.now answers.old) }
    ensures goes_on { (start : CoreState) (before : List CallOfPart)
        → seen part.old ≡ state_after part_machine start (log_of part_machine start before)
        → KeepsTime part_machine digit_chart start (before ++ calls_worked calls.now answers.old) }
{
    work_calls(part, calls, answers)
}
