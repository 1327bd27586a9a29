// Two hosts with a session each on one 348A, their calls worked as one list: the end of a minute meets a read.
#![tactic(auto)]

mod calls;
mod lines;

use calls::{CALLS, START};
use host_runs::call::HostAnswer;
use host_runs::session::HostSession;
use host_runs::work::work_host_calls;
use host_sessions::idle::IdleSession;
use lines::{print_answer, print_buffer, print_call};
use rx5c348a::part::Rx5c348a;

fn new_session() -> HostSession {
    HostSession::Idle(IdleSession::new())
}

fn run(rt: &HostRuntime) -> anyhow::Result<()> {
    let mut part = Rx5c348a::power_on();
    part.load(START)?;
    let mut buffer = [0u8; 7];
    let mut answers = [Ok(HostAnswer::Done); CALLS.len()];
    let mut sessions = [new_session(), new_session()];
    work_host_calls(&mut sessions, &mut part, &mut buffer, &CALLS, &mut answers);
    let [first, second] = sessions;
    first.end(&mut part);
    second.end(&mut part);
    for (call, answer) in CALLS.iter().zip(answers.iter()) {
        print_call(rt, *call)?;
        print_answer(rt, *answer)?;
    }
    print_buffer(rt, &buffer)?;
    Ok(())
}

fn main(rt: HostRuntime) -> anyhow::Result<()> {
    run(&rt)
}
