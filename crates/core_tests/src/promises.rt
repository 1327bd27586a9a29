// What the calls of the traits promise, said of a core over any map.
ghost use Rattle.std.specs.Prelude.{◌≡◌, ◌++◌, List};
ghost use Rattle.clock_core.specs.Core.{CoreState, look_at};
ghost use Rattle.clock_core.specs.View.{meant};
ghost use Rattle.timekeeping.specs.CoreCalls.{do_call, core_machine};
ghost use Rattle.timekeeping.specs.declared.call.CoreCall.{CoreCall as CallOfCore};
ghost use Rattle.timekeeping.specs.Logs.{state_after, log_of};
ghost use Rattle.timekeeping.specs.Worked.{calls_worked, worked};
ghost use Rattle.timekeeping.specs.Law.{KeepsTime};

use clock_core::clock::ClockCore;
use refusals::Refusal;
use register_map::map::RegisterMap;
use timekeeping::call::{CoreAnswer, CoreCall};
use timekeeping::work::{Call, work_calls};

pub fn look_at_core<M: RegisterMap>(core: &ClockCore<M>, buffer: &mut [u8]) -> Result<(), Refusal>
    ensures { (result, buffer.new) ≡ look_at (meant M.RegisterMap core.now) buffer.old }
{
    core.look(buffer)
}

pub fn call_core<M: RegisterMap>(
    core: &mut ClockCore<M>,
    call: CoreCall,
) -> Result<CoreAnswer, Refusal>
    ensures { (result, meant M.RegisterMap core.new) ≡ do_call M.RegisterMap.chart (meant M.RegisterMap core.old) call }
{
    call.call(core)
}

// Every list keeps time, wherever it begins.
fn lists_keep_time<M: RegisterMap>()
    ensures { (start : CoreState) (calls : List CallOfCore)
        → KeepsTime (core_machine M.RegisterMap.chart) M.RegisterMap.chart start calls }
{
    <CoreCall as Call<ClockCore<M>>>::keeps_time();
}

pub fn work_core_calls<M: RegisterMap>(
    core: &mut ClockCore<M>,
    calls: &[CoreCall],
    answers: &mut [Result<CoreAnswer, Refusal>],
) -> usize
    ensures answers { (result, meant M.RegisterMap core.new, answers.new)
        ≡ worked (core_machine M.RegisterMap.chart) (meant M.RegisterMap core.old)
        calls.now answers.old }
    ensures law { KeepsTime (core_machine M.RegisterMap.chart) M.RegisterMap.chart
        (meant M.RegisterMap core.old) (calls_worked calls.now answers.old) }
    ensures goes_on { (start : CoreState) (before : List CallOfCore)
        → meant M.RegisterMap core.old
        ≡ state_after (core_machine M.RegisterMap.chart) start
        (log_of (core_machine M.RegisterMap.chart) start before)
        → KeepsTime (core_machine M.RegisterMap.chart) M.RegisterMap.chart
        start (before ++ calls_worked calls.now answers.old) }
{
    lists_keep_time::<M>();
    work_calls(core, calls, answers)
}
