// What the calls of the traits promise, said of a 348A and of its register file.
ghost use Rattle.std.specs.Prelude.{◌≡◌, ◌++◌, List};
ghost use Rattle.byte_map.specs.Cells.{byte_chart};
ghost use Rattle.rx5c_registers.specs.File.{file_seen, look_at};
ghost use Rattle.rx5c348a.specs.Part.{PartState, seen, look_part};
ghost use Rattle.rx5c348a_runs.specs.Calls.{do_call, part_machine};
ghost use Rattle.rx5c348a_runs.specs.Start.{AtRest};
ghost use Rattle.rx5c348a_runs.specs.declared.call.WireCall.{WireCall as CallOnWires};
ghost use Rattle.timekeeping.specs.Logs.{state_after, log_of};
ghost use Rattle.timekeeping.specs.Worked.{calls_worked, worked};
ghost use Rattle.timekeeping.specs.Law.{KeepsTime};

use refusals::Refusal;
use rx5c_registers::file::RegisterFile;
use rx5c348a::part::Rx5c348a;
use rx5c348a_runs::call::{WireAnswer, WireCall};
use timekeeping::work::{Call, work_calls};

pub fn look_at_file(file: &RegisterFile, buffer: &mut [u8]) -> Result<(), Refusal>
    ensures { (result, buffer.new) ≡ look_at (file_seen file.now) buffer.old }
{
    file.look(buffer)
}

pub fn look_at_part(part: &Rx5c348a, buffer: &mut [u8]) -> Result<(), Refusal>
    ensures { (result, buffer.new) ≡ look_part (seen part.now) buffer.old }
{
    part.look(buffer)
}

#[tactic(auto, unfolding(rx5c348a_runs::specs::Calls::work_one))]
pub fn call_part(part: &mut Rx5c348a, call: WireCall) -> Result<WireAnswer, Refusal>
    ensures { (result, seen part.new) ≡ do_call (seen part.old) call }
{
    call.call(part)
}

pub fn work_part_calls(
    part: &mut Rx5c348a,
    calls: &[WireCall],
    answers: &mut [Result<WireAnswer, Refusal>],
) -> usize
    ensures answers { (result, seen part.new, answers.new)
        ≡ worked part_machine (seen part.old) calls.now answers.old }
    ensures law { AtRest (seen part.old)
        → KeepsTime part_machine byte_chart (seen part.old) (calls_worked calls.now answers.old) }
    ensures goes_on { (start : PartState) (before : List CallOnWires) → AtRest start
        → seen part.old ≡ state_after part_machine start (log_of part_machine start before)
        → KeepsTime part_machine byte_chart start (before ++ calls_worked calls.now answers.old) }
{
    work_calls(part, calls, answers)
}
