// Fh read, changed and written back in one session.
use crate::host::*;
use host_sessions::idle::IdleSession;
use refusals::Refusal;
use rx5c348a::part::Rx5c348a;
use rx5c348a::pins::CE;
use std::process::Abort;
use std::test::Fail;

const SCRATCH1: u8 = 0x20;

const WAFG: u8 = 0x02;

// Alarm_W at 14:00 on Fridays has just rung.
fn ringing_part() -> Result<Rx5c348a, Fail> {
    let mut part = part_at(50_399)?;
    write_one(&mut part, 0x9, 0x14)?;
    write_one(&mut part, 0xA, 0x20)?;
    write_one(&mut part, CONTROL, 0xA0)?;
    part.pulses(SECOND)?;
    Ok(part)
}

// Sets and clears bits of Fh; answers Fh before and after.
fn change_flags(part: &mut Rx5c348a, set: u8, cleared: u8) -> Result<(u8, u8), Refusal> {
    in_session(part, |session, part| {
        let before = session.read(part, FLAGS)?;
        session.write(part, FLAGS, (before | set) & !cleared)?;
        Ok((before, session.read(part, FLAGS)?))
    })
}

// Such a change, Fh before and after it, and /INTR then.
fn expect_change(
    rt: &impl Abort,
    part: &mut Rx5c348a,
    change: (u8, u8),
    flags: (u8, u8),
    intr: u8,
) -> Result<(), Fail> {
    let (set, cleared) = change;
    assert_eq!(rt; change_flags(part, set, cleared)?, flags);
    assert_eq!(rt; u8::from(part.answer().intr), intr);
    Ok(())
}

#[test]
fn flags_change_in_one_session(rt: HostRuntime) -> Result<(), Fail> {
    let mut part = ringing_part()?;
    assert_eq!(rt; u8::from(part.answer().intr), 0);
    // a flag that is written back as 1 stays
    expect_change(&rt, &mut part, (SCRATCH1, 0), (WAFG, WAFG | SCRATCH1), 0)?;
    expect_change(&rt, &mut part, (0, WAFG), (WAFG | SCRATCH1, SCRATCH1), 1)?;
    // and cannot be set by writing
    expect_change(&rt, &mut part, (WAFG, SCRATCH1), (SCRATCH1, 0), 1)
}

// A host that lets many headers follow each other under one CE.
#[test]
fn many_transfers_in_one_session(rt: HostRuntime) -> Result<(), Fail> {
    let mut part = part_at(0)?;
    let mut session = IdleSession::new().open(&mut part);
    let mut agree = true;
    for byte in 0..128u8 {
        let written = session.write(&mut part, 7, byte);
        let read = session.read(&mut part, 7);
        agree = agree && refused_with(written) == 0 && byte_or_number(read) == Ok(byte);
    }
    let levels = u64::from(session.pin_record().levels);
    session.close(&mut part).end();
    assert!(rt; agree);
    assert_eq!(rt; levels, CE);
    Ok(())
}
