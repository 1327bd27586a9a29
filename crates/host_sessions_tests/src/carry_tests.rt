// All sixteen registers read while the end of an hour comes, met at every pulse around it.
use crate::host::*;
use host_sessions::idle::IdleSession;
use refusals::Refusal;
use rx5c348a::part::Rx5c348a;
use std::process::Abort;
use std::test::Fail;

// 13:59:59 before the end of the second, 14:00:00 from then on.
fn registers_after(pulses: u64) -> [u8; 16] {
    on_friday(if pulses < SECOND {
        [0x59, 0x59, 0x13]
    } else {
        [0x00, 0x00, 0x14]
    })
}

// Reads register after register, with a pulse after each.
fn read_slowly(part: &mut Rx5c348a) -> Result<[u8; 16], Refusal> {
    in_session(part, |session, part| {
        let mut registers = [0u8; 16];
        for (address, register) in (0u32..).zip(registers.iter_mut()) {
            *register = session.read(part, address)?;
            part.pulses(1)?;
        }
        Ok(registers)
    })
}

fn burst_after(rt: &impl Abort, pulses: u64) -> Result<(), Fail> {
    let mut part = part_at(50_399)?;
    part.pulses(pulses)?;
    let mut registers = [0u8; 16];
    assert_eq!(rt; read_burst(&mut part, 0, &mut registers), 16);
    assert_eq!(rt; registers, registers_after(pulses));
    Ok(())
}

// The carry is there or not as the session opens.
#[test]
fn burst_after_the_pulses(rt: HostRuntime) -> Result<(), Fail> {
    for k in 0..60u64 {
        burst_after(&rt, SECOND - 30 + k)?;
    }
    Ok(())
}

// A burst of all registers after pulses in the open session.
fn read_held(part: &mut Rx5c348a, pulses: u64) -> Result<(usize, [u8; 16]), Refusal> {
    let session = IdleSession::new().open(part);
    let given = part.pulses(pulses);
    let mut registers = [0u8; 16];
    let (spent, moved) = session.burst_read(part, 0, &mut registers);
    spent.close(part).end();
    given?;
    Ok((moved, registers))
}

fn burst_over(rt: &impl Abort, pulses: u64) -> Result<(), Fail> {
    let mut part = part_at(50_399)?;
    assert_eq!(rt; read_held(&mut part, pulses)?, (16, registers_after(0)));
    assert_eq!(rt; look(&part)?, registers_after(pulses));
    Ok(())
}

// The carry comes in an open session: the burst is of the moment of opening, and closing lets the carry through.
#[test]
fn burst_over_the_pulses(rt: HostRuntime) -> Result<(), Fail> {
    for k in 0..60u64 {
        burst_over(&rt, SECOND - 30 + k)?;
    }
    Ok(())
}

fn singles_over(rt: &impl Abort, pulses: u64) -> Result<(), Fail> {
    let mut part = part_at(50_399)?;
    part.pulses(pulses)?;
    assert_eq!(rt; read_slowly(&mut part)?, registers_after(pulses));
    assert_eq!(rt; look(&part)?, registers_after(pulses.wrapping_add(16)));
    Ok(())
}

// Single reads of one session are never torn, though sixteen pulses come among them.
#[test]
fn singles_over_the_carry(rt: HostRuntime) -> Result<(), Fail> {
    for k in 0..40u64 {
        singles_over(&rt, SECOND - 30 + k)?;
    }
    Ok(())
}
