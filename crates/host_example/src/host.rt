// Each call is one session: opened, used and closed, whatever the part answers.
use host_sessions::idle::IdleSession;
use host_sessions::open::OpenSession;
use host_sessions::spent::SpentSession;
use refusals::Refusal;
use rx5c348a::part::Rx5c348a;

pub(crate) const ALARM_W: u32 = 0x8;

pub(crate) const CONTROL: u32 = 0xE;

pub(crate) const FLAGS: u32 = 0xF;

// Single transfers, as many as `transfer` makes.
fn in_session<R, F: FnOnce(&mut OpenSession, &mut Rx5c348a) -> R>(
    part: &mut Rx5c348a,
    transfer: F,
) -> R
    requires { F.IsAlwaysCallable transfer }
{
    let mut session = IdleSession::new().open(part);
    let answer = transfer(&mut session, part);
    session.close(part).end();
    answer
}

// One burst, which spends the session.
fn in_burst<F: FnOnce(OpenSession, &mut Rx5c348a) -> (SpentSession, usize)>(
    part: &mut Rx5c348a,
    burst: F,
) -> usize
    requires { F.IsAlwaysCallable burst }
{
    let session = IdleSession::new().open(part);
    let (spent, moved) = burst(session, part);
    spent.close(part).end();
    moved
}

pub(crate) fn read_register(part: &mut Rx5c348a, address: u32) -> Result<u8, Refusal> {
    in_session(part, |session, part| session.read(part, address))
}

pub(crate) fn write_register(part: &mut Rx5c348a, address: u32, byte: u8) -> Result<(), Refusal> {
    in_session(part, |session, part| session.write(part, address, byte))
}

pub(crate) fn read_registers(part: &mut Rx5c348a, address: u32, buffer: &mut [u8]) -> usize {
    in_burst(
        part,
        |session, part| session.burst_read(part, address, buffer),
    )
}

pub(crate) fn write_registers(part: &mut Rx5c348a, address: u32, bytes: &[u8]) -> usize {
    in_burst(
        part,
        |session, part| session.burst_write(part, address, bytes),
    )
}

// Clears flags: a read of Fh, and a write of what stays.
pub(crate) fn clear_flags(part: &mut Rx5c348a, cleared: u8) -> Result<(), Refusal> {
    in_session(part, |session, part| {
        let flags = session.read(part, FLAGS)?;
        session.write(part, FLAGS, flags & !cleared)
    })
}

// Hour, minute and second, while pulses come between the reads.
pub(crate) fn read_time_slowly(part: &mut Rx5c348a, pulses: u64) -> Result<[u8; 3], Refusal> {
    in_session(part, |session, part| {
        let hour = session.read(part, 2)?;
        part.pulses(pulses)?;
        let minute = session.read(part, 1)?;
        part.pulses(pulses)?;
        let second = session.read(part, 0)?;
        Ok([hour, minute, second])
    })
}
