// A session whose state is known only as its calls come, one by one.
ghost use Rattle.std.specs.Prelude.{◌≡◌, length};
ghost use Rattle.rx5c348a.specs.Part.{seen};
ghost use Rattle.host_wires.specs.Record.{wired};
ghost use Rattle.host_runs.specs.Hosts.{stepped, seat, session_ended, burst_front, idle_step, open_step, spent_step, session_step};
ghost use Rattle.host_runs.specs.Levels.{session_levels, ending_levels, part_after_levels};
ghost use Rattle.host_runs.specs.Reads.{CellsAreHeard, CellsAgree};

use crate::call::{HostAnswer, SessionCall};
use host_sessions::idle::IdleSession;
use host_sessions::open::OpenSession;
use host_sessions::spent::SpentSession;
use host_wires::record::PinRecord;
use refusals::Refusal;
use rx5c348a::part::Rx5c348a;
use std::mem::replace;

pub enum HostSession {
    Idle(IdleSession),
    Active(OpenSession),
    Spent(SpentSession),
}

// A burst read into the front of a buffer.
fn read_front(
    session: OpenSession,
    part: &mut Rx5c348a,
    address: u32,
    count: usize,
    buffer: &mut [u8],
) -> (SpentSession, usize)
    ensures { (result.1, buffer.new, wired result.0.pins (seen part.new))
        ≡ burst_front address count buffer.old (wired session.pins (seen part.old)) }
{
    let room = count.min(buffer.len());
    session.burst_read(part, address, &mut buffer[0..room])
}

fn step_idle(
    session: IdleSession,
    part: &mut Rx5c348a,
    call: SessionCall<'_>,
) -> (HostSession, Result<HostAnswer, Refusal>)
    ensures { (result.1, seat result.0, seen part.new)
        ≡ idle_step session.pins (seen part.old) call.entry }
{
    match call {
        SessionCall::Open => (
            HostSession::Active(session.open(part)),
            Ok(HostAnswer::Done),
        ),
        _ => (HostSession::Idle(session), Ok(HostAnswer::DoesNotBuild)),
    }
}

fn step_open(
    session: OpenSession,
    part: &mut Rx5c348a,
    call: SessionCall<'_>,
    buffer: &mut [u8],
) -> (HostSession, Result<HostAnswer, Refusal>)
    ensures { stepped result.1 (seat result.0) (seen part.new) buffer.new
        ≡ open_step session.pins (seen part.old) buffer.old call.entry }
{
    match call {
        SessionCall::Open => (HostSession::Active(session), Ok(HostAnswer::DoesNotBuild)),
        SessionCall::Close => (HostSession::Idle(session.close(part)), Ok(HostAnswer::Done)),
        SessionCall::Read(address) => {
            let mut session = session;
            let answer = session.read(part, address).map(HostAnswer::Byte);
            (HostSession::Active(session), answer)
        }
        SessionCall::Write(address, byte) => {
            let mut session = session;
            let answer = session
                .write(part, address, byte)
                .map(|()| HostAnswer::Done);
            (HostSession::Active(session), answer)
        }
        SessionCall::BurstRead(address, count) => {
            let (spent, moved) = read_front(session, part, address, count, buffer);
            (HostSession::Spent(spent), Ok(HostAnswer::Moved(moved)))
        }
        SessionCall::BurstWrite(address, bytes) => {
            let (spent, moved) = session.burst_write(part, address, bytes);
            (HostSession::Spent(spent), Ok(HostAnswer::Moved(moved)))
        }
    }
}

fn step_spent(
    session: SpentSession,
    part: &mut Rx5c348a,
    call: SessionCall<'_>,
) -> (HostSession, Result<HostAnswer, Refusal>)
    ensures { (result.1, seat result.0, seen part.new)
        ≡ spent_step session.pins (seen part.old) call.entry }
{
    match call {
        SessionCall::Close => (HostSession::Idle(session.close(part)), Ok(HostAnswer::Done)),
        _ => (HostSession::Spent(session), Ok(HostAnswer::DoesNotBuild)),
    }
}

impl HostSession {
    // One call, as far as the session's state takes it.
    fn step_by_state(
        self,
        part: &mut Rx5c348a,
        call: SessionCall<'_>,
        buffer: &mut [u8],
    ) -> (HostSession, Result<HostAnswer, Refusal>)
        ensures { stepped result.1 (seat result.0) (seen part.new) buffer.new
            ≡ session_step (seat self) (seen part.old) buffer.old call.entry }
    {
        match self {
            HostSession::Idle(session) => step_idle(session, part, call),
            HostSession::Active(session) => step_open(session, part, call, buffer),
            HostSession::Spent(session) => step_spent(session, part, call),
        }
    }

    // One call of a session. It is its levels, however many sessions there are.
    pub fn step(
        self,
        part: &mut Rx5c348a,
        call: SessionCall<'_>,
        buffer: &mut [u8],
    ) -> (HostSession, Result<HostAnswer, Refusal>)
        ensures value { stepped result.1 (seat result.0) (seen part.new) buffer.new
            ≡ session_step (seat self) (seen part.old) buffer.old call.entry }
        ensures levels { seen part.new ≡ part_after_levels (seen part.old)
            (session_levels (seat self) (seen part.old) (length buffer.old) call.entry) }
        ensures heard { CellsAreHeard (seen part.old)
            (session_levels (seat self) (seen part.old) (length buffer.old) call.entry)
            call.entry result.1 buffer.new }
        ensures reads { CellsAgree (seen part.old) call.entry result.1 buffer.new }
    {
        self.step_by_state(part, call, buffer)
    }

    // One call of a session where it stands. The call moves it, so an idle one takes its place
    // meanwhile, whose end drives nothing.
    pub(crate) fn step_in_place(
        &mut self,
        part: &mut Rx5c348a,
        call: SessionCall<'_>,
        buffer: &mut [u8],
    ) -> Result<HostAnswer, Refusal>
        ensures { stepped result (seat self.new) (seen part.new) buffer.new
            ≡ session_step (seat self.old) (seen part.old) buffer.old call.entry }
    {
        let session = replace(self, HostSession::Idle(IdleSession::new()));
        let (stepped, answer) = session.step(part, call, buffer);
        replace(self, stepped).end(part);
        answer
    }

    // Closes what is open.
    fn end_by_state(self, part: &mut Rx5c348a) -> PinRecord
        ensures { wired result (seen part.new) ≡ session_ended (seat self) (seen part.old) }
    {
        match self {
            HostSession::Idle(session) => session.end(),
            HostSession::Active(session) => session.close(part).end(),
            HostSession::Spent(session) => session.close(part).end(),
        }
    }

    // Closes what is open, and ends. It is its levels too.
    pub fn end(self, part: &mut Rx5c348a) -> PinRecord
        ensures value { wired result (seen part.new) ≡ session_ended (seat self) (seen part.old) }
        ensures levels { seen part.new
            ≡ part_after_levels (seen part.old) (ending_levels (seat self) (seen part.old)) }
    {
        self.end_by_state(part)
    }
}
