// Works a list of calls of hosts on one part.
ghost use Rattle.std.specs.Prelude.{◌≡◌, ◌++◌, List};
ghost use Rattle.byte_map.specs.Cells.{byte_chart};
ghost use Rattle.timekeeping.specs.Worked.{calls_worked};
ghost use Rattle.timekeeping.specs.Law.{KeepsTime};
ghost use Rattle.rx5c348a.specs.Part.{PartState, seen};
ghost use Rattle.rx5c348a_runs.specs.declared.call.WireCall.{WireCall as CallOnWires};
ghost use Rattle.rx5c348a_runs.specs.Calls.{part_machine};
ghost use Rattle.rx5c348a_runs.specs.Start.{AtRest};
ghost use Rattle.host_runs.specs.declared.call.HostCall.{HostCall as CallOfHosts};
ghost use Rattle.host_runs.specs.Hosts.{HostState, standing, session_call, work_one, host_run, hosts_worked};
ghost use Rattle.host_runs.specs.Levels.{on_wires, part_after, LevelsAfterEachCall};
ghost use Rattle.host_runs.specs.Reads.{SessionReadsAreHeard, SessionReadsAgree};

use crate::call::{HostAnswer, HostCall, SessionCall};
use crate::session::HostSession;
use refusals::Refusal;
use rx5c348a::part::Rx5c348a;
use timekeeping::work::Call;

// One call of the session of a number, if there is one.
fn call_session(
    sessions: &mut [HostSession],
    number: usize,
    part: &mut Rx5c348a,
    buffer: &mut [u8],
    call: SessionCall<'_>,
) -> Result<HostAnswer, Refusal>
    ensures { (result, standing sessions.new (seen part.new) buffer.new)
        ≡ session_call (standing sessions.old (seen part.old) buffer.old) number call.entry }
{
    if number < sessions.len() {
        sessions[number].step_in_place(part, call, buffer)
    } else {
        Ok(HostAnswer::NoSuchSession)
    }
}

impl HostCall<'_> {
    // One call of a list. Sessions, part and buffer are passed to each: the borrows of a struct
    // would have to be named again in every contract.
    #[tactic(auto, unfolding(crate::specs::Hosts::work_one))]
    pub fn call(
        self,
        sessions: &mut [HostSession],
        part: &mut Rx5c348a,
        buffer: &mut [u8],
    ) -> Result<HostAnswer, Refusal>
        ensures { (result, standing sessions.new (seen part.new) buffer.new)
            ≡ work_one (standing sessions.old (seen part.old) buffer.old) self.entry }
    {
        match self {
            HostCall::Wire(call) => call.call(part).map(HostAnswer::Wire),
            HostCall::Session(number, call) => call_session(sessions, number, part, buffer, call),
        }
    }
}

// One call of a list, its answer in its place.
fn work_into(
    sessions: &mut [HostSession],
    part: &mut Rx5c348a,
    buffer: &mut [u8],
    call: HostCall<'_>,
    answer: &mut Result<HostAnswer, Refusal>,
)
    ensures { (answer.new, standing sessions.new (seen part.new) buffer.new)
        ≡ work_one (standing sessions.old (seen part.old) buffer.old) call.entry }
{
    *answer = call.call(sessions, part, buffer);
}

// A loop of its own: a `Call` of timekeeping is one sight to an onlooker, and a call of a session
// is as many as it drives levels.
fn work_in_turn(
    sessions: &mut [HostSession],
    part: &mut Rx5c348a,
    buffer: &mut [u8],
    calls: &[HostCall<'_>],
    answers: &mut [Result<HostAnswer, Refusal>],
) -> usize
    ensures { (result, standing sessions.new (seen part.new) buffer.new, answers.new)
        ≡ hosts_worked (standing sessions.old (seen part.old) buffer.old) calls.now answers.old }
{
    let count = calls.len().min(answers.len());
    for place in 0..count {
        work_into(sessions, part, buffer, calls[place], &mut answers[place]);
    }
    count
}

// What stands for every list: the calls of sessions are their levels, lists keep time,
// and hosts are given what is heard.
fn lists_keep_time()
    ensures levels { (s : HostState) (calls : List CallOfHosts)
        → (host_run s calls).1.part ≡ part_after s.part (on_wires s calls) }
    ensures each_call { (s : HostState) (calls : List CallOfHosts) → LevelsAfterEachCall s calls }
    ensures law { (start : PartState) → AtRest start → (calls : List CallOnWires)
        → KeepsTime part_machine byte_chart start calls }
    ensures heard { (s : HostState) → AtRest s.part → (calls : List CallOfHosts)
        → SessionReadsAreHeard s calls }
    ensures reads { (s : HostState) → AtRest s.part → (calls : List CallOfHosts)
        → SessionReadsAgree s calls }
{}

// Works a list of calls, one after the other, as many as there is room for answers, and gives
// their number. From a newly loaded part the calls worked keep time, each call of a session taken
// as the levels that it drives, and so do they after any calls on the part.
pub fn work_host_calls(
    sessions: &mut [HostSession],
    part: &mut Rx5c348a,
    buffer: &mut [u8],
    calls: &[HostCall<'_>],
    answers: &mut [Result<HostAnswer, Refusal>],
) -> usize
    ensures answers { (result, standing sessions.new (seen part.new) buffer.new, answers.new)
        ≡ hosts_worked (standing sessions.old (seen part.old) buffer.old) calls.now answers.old }
    ensures levels { seen part.new ≡ part_after (seen part.old)
        (on_wires (standing sessions.old (seen part.old) buffer.old)
        (calls_worked calls.now answers.old)) }
    ensures each_call { LevelsAfterEachCall (standing sessions.old (seen part.old) buffer.old)
        (calls_worked calls.now answers.old) }
    ensures law { AtRest (seen part.old) → KeepsTime part_machine byte_chart (seen part.old)
        (on_wires (standing sessions.old (seen part.old) buffer.old)
        (calls_worked calls.now answers.old)) }
    ensures goes_on { (start : PartState) (before : List CallOnWires) → AtRest start
        → seen part.old ≡ part_after start before
        → KeepsTime part_machine byte_chart start (before
        ++ on_wires (standing sessions.old (seen part.old) buffer.old)
        (calls_worked calls.now answers.old)) }
    ensures heard { AtRest (seen part.old)
        → SessionReadsAreHeard (standing sessions.old (seen part.old) buffer.old)
        (calls_worked calls.now answers.old) }
    ensures reads { AtRest (seen part.old)
        → SessionReadsAgree (standing sessions.old (seen part.old) buffer.old)
        (calls_worked calls.now answers.old) }
{
    lists_keep_time();
    work_in_turn(sessions, part, buffer, calls, answers)
}
