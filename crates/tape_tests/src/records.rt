// Records played one by one, with no heap.
use lines::Origin;
use refusals::Refusal;
use rx5c348a::part::Rx5c348a;
use std::test::Fail;
use tape::play::play_record;

// One record: what it prints stands at the front of the line, and the rest of line and tape is as it was.
#[test]
fn record_by_record(rt: HostRuntime) -> Result<(), Fail> {
    let mut part = Rx5c348a::power_on();
    let mut line = [0xAA; 64];
    let (printed, rest) = play_record(b"\x50\x03\x4C\x01\x99", &mut part, &mut line)?;
    assert_eq!(rt; (printed, rest), (0, b"\x4C\x01\x99".as_slice()));
    assert_eq!(rt; line, [0xAA; 64]);
    let (printed, rest) = play_record(rest, &mut part, &mut line)?;
    assert_eq!(rt; printed, 35);
    assert!(rt; line.starts_with(b"1 00000000000000000000000000000010\n\xAA"));
    let fault = play_record(rest, &mut part, &mut line)
        .err()
        .ok_or("taken")?;
    assert_eq!(rt;
        (fault.refusal, fault.origin),
        (Refusal::UnknownKind, Origin::Tape)
    );
    Ok(())
}
