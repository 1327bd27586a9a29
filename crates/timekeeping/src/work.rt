// Works a list of calls on one thing with a core in it.
ghost use Rattle.std.specs.Prelude.{◌≡◌, ◌++◌, List, Result};
ghost use Rattle.refusals.specs.declared.Refusal.{Refusal as Why};
ghost use Rattle.register_map.specs.declared.hour_mode.HourMode.{HourMode};
ghost use Rattle.register_map.specs.Chart.{Chart};
ghost use Rattle.clock_core.specs.Core.{CoreState};
ghost use Rattle.timekeeping.specs.Logs.{Sight, Heard, machine_of, state_after, log_of};
ghost use Rattle.timekeeping.specs.Worked.{calls_worked, worked};
ghost use Rattle.timekeeping.specs.Law.{KeepsTime};

use refusals::Refusal;

// A call on such a thing, as a list has it.
pub trait Call<T>: Copy {
    // of an accepted call
    type Answer: Drop;

    // what contracts speak of
    ghost State: { Type 0 };

    ghost seen: { T → State };

    // what a call answers and leaves
    ghost step: { State → Self → Result Self.Answer Why × State };

    ghost core: { State → CoreState };

    // what an onlooker, who heard the calls before, makes of one more
    ghost sight: { HourMode → List (Heard Self (Result Self.Answer Why)) → Heard Self (Result Self.Answer Why) → Sight };

    // of the map under the core
    ghost chart: { Chart };

    // what the thing must keep, beyond that its core is newly made, where a list begins
    ghost begins: { State → Type 0 };

    fn call(self, on: &mut T) -> Result<Self::Answer, Refusal>
        ensures { (result, seen on.new) ≡ step (seen on.old) self };

    // Says that every list of these calls keeps time.
    fn keeps_time()
        ensures { (start : State) → begins start → (calls : List Self) → KeepsTime (machine_of step core sight) chart start calls };
}

// One call of a list, its answer in its place.
fn work_into<T, C: Call<T>>(thing: &mut T, call: C, answer: &mut Result<C::Answer, Refusal>)
    ensures { (answer.new, C.seen thing.new) ≡ C.step (C.seen thing.old) call }
{
    *answer = call.call(thing);
}

// Call and answer by their place in the row.
fn work_in_turn<T, C: Call<T>>(
    thing: &mut T,
    calls: &[C],
    answers: &mut [Result<C::Answer, Refusal>],
) -> usize
    ensures { (result, C.seen thing.new, answers.new)
        ≡ worked (machine_of C.step C.core C.sight) (C.seen thing.old) calls.now answers.old }
{
    let count = calls.len().min(answers.len());
    for place in 0..count {
        work_into(thing, calls[place], &mut answers[place]);
    }
    count
}

// Works a list of calls, one after the other, as many as there is room for answers, and gives their number.
// From a newly made core the calls worked keep time, and so do they after any others.
pub fn work_calls<T, C: Call<T>>(
    thing: &mut T,
    calls: &[C],
    answers: &mut [Result<C::Answer, Refusal>],
) -> usize
    ensures answers { (result, C.seen thing.new, answers.new)
        ≡ worked (machine_of C.step C.core C.sight) (C.seen thing.old) calls.now answers.old }
    ensures law { C.begins (C.seen thing.old)
        → KeepsTime (machine_of C.step C.core C.sight) C.chart
        (C.seen thing.old) (calls_worked calls.now answers.old) }
    ensures goes_on { (start : C.State) (before : List C) → C.begins start
        → C.seen thing.old
        ≡ state_after (machine_of C.step C.core C.sight) start
        (log_of (machine_of C.step C.core C.sight) start before)
        → KeepsTime (machine_of C.step C.core C.sight) C.chart
        start (before ++ calls_worked calls.now answers.old) }
{
    C::keeps_time();
    work_in_turn(thing, calls, answers)
}
