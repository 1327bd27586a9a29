// What the bench prints of a tape.
use rx5c348a::part::Rx5c348a;
use std::alloc::Global;
use std::process::Abort;
use std::test::Fail;
use tape::play::ReadyTape;

// What is printed, and after a fault its line.
fn printout(heap: Global, tape: &[u8]) -> Result<Vec<u8>, Fail> {
    let mut part = Rx5c348a::power_on();
    let mut playback = ReadyTape::new(heap, tape)?.play(&mut part);
    if let Err(fault) = playback.end {
        // by the call that makers have too, into a buffer of its caller's
        let mut line = [0u8; 64];
        let length = fault.line(&mut line)?;
        playback.printed.extend_from_slice(&line[..length])?;
    }
    Ok(playback.printed)
}

pub(crate) fn prints(
    rt: &impl Abort,
    heap: Global,
    tape: &[u8],
    expected: &[u8],
) -> Result<(), Fail> {
    let printed = printout(heap, tape)?;
    assert_eq!(rt; printed.as_slice(), expected);
    Ok(())
}
