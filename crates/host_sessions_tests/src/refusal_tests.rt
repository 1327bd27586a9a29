// What a session refuses: an address over 15, then a part that awaits no header. Nothing is driven then.
use crate::host::*;
use host_sessions::idle::IdleSession;
use host_sessions::open::OpenSession;
use refusals::Refusal;
use rx5c348a::part::Rx5c348a;
use rx5c348a::pins::CE;
use std::test::Fail;

// Refusals keep a session open, and leave its record and the part alone.
#[test]
fn addresses_over_fifteen(rt: HostRuntime) -> Result<(), Fail> {
    for address in [16, 17, 0x1_0000, u32::MAX] {
        let mut part = part_at(50_399)?;
        let mut session = IdleSession::new().open(&mut part);
        let before = all_of(&part);
        let read = session.read(&mut part, address);
        let written = session.write(&mut part, address, 0x55);
        let after = all_of(&part);
        let awaits = part.awaits_header();
        let served = session.read(&mut part, 0);
        let levels = u64::from(session.pin_record().levels);
        session.close(&mut part).end();
        assert_eq!(rt; byte_or_number(read), Err(7));
        assert_eq!(rt; refused_with(written), 7);
        assert!(rt; before? == after?);
        assert!(rt; awaits);
        assert_eq!(rt; byte_or_number(served), Ok(0x59));
        assert_eq!(rt; levels, CE);
    }
    Ok(())
}

// A header bit came in past the session: single transfers are refused with 10, but with 7 where both rules apply.
#[test]
fn seven_before_ten(rt: HostRuntime) -> Result<(), Fail> {
    let mut part = part_at(50_399)?;
    let mut session = IdleSession::new().open(&mut part);
    let clocked = clock_bits(&mut part, 0x80, 1);
    let before = all_of(&part);
    let rows = [(15, 10), (0, 10), (16, 7), (u32::MAX, 7)];
    let mut agree = true;
    for (address, number) in rows {
        let read = session.read(&mut part, address);
        let written = session.write(&mut part, address, 0x55);
        agree = agree && byte_or_number(read) == Err(number) && refused_with(written) == number;
    }
    let after = all_of(&part);
    let levels = u64::from(session.pin_record().levels);
    session.close(&mut part).end();
    clocked?;
    assert!(rt; agree);
    assert!(rt; before? == after?);
    assert_eq!(rt; levels, CE);
    Ok(())
}

// A session whose part does not await a header: none of a header's bits is missing but one.
fn opened_and_clocked(part: &mut Rx5c348a) -> (OpenSession, Result<(), Refusal>) {
    let session = IdleSession::new().open(part);
    let clocked = clock_bits(part, 0x04, 7);
    (session, clocked)
}

// A refused burst moves nothing, leaves its buffer and the part alone, and spends the session.
#[test]
fn bursts_refused(rt: HostRuntime) -> Result<(), Fail> {
    let mut part = part_at(50_399)?;
    let (session, clocked) = opened_and_clocked(&mut part);
    let before = all_of(&part);
    let mut buffer = [0xAAu8; 5];
    let (spent, moved) = session.burst_read(&mut part, 0, &mut buffer);
    let after = all_of(&part);
    let levels = u64::from(spent.pin_record().levels);
    spent.close(&mut part).end();
    clocked?;
    assert_eq!(rt; moved, 0);
    assert_eq!(rt; buffer, [0xAA; 5]);
    assert!(rt; before? == after?);
    assert_eq!(rt; levels, CE);
    let (session, clocked) = opened_and_clocked(&mut part);
    let before = all_of(&part);
    let (spent, moved) = session.burst_write(&mut part, 16, &[1, 2, 3]);
    let after = all_of(&part);
    spent.close(&mut part).end();
    clocked?;
    assert_eq!(rt; moved, 0);
    assert!(rt; before? == after?);
    assert_eq!(rt; read_burst(&mut part, 16, &mut buffer), 0);
    assert_eq!(rt; write_burst(&mut part, u32::MAX, &[1]), 0);
    assert_eq!(rt; buffer, [0xAA; 5]);
    assert_eq!(rt; look(&part)?, on_friday([0x59, 0x59, 0x13]));
    Ok(())
}
