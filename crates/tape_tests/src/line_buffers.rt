// The line calls on short, exact and longer buffers.
use lines::{Origin, fault_line, record_line};
use refusals::Refusal;
use std::test::Fail;

const LARGEST: u64 = 0xFFFF_FFFF_FFFF_FFFF;

#[test]
fn record_line_needs_64_bytes(rt: HostRuntime) {
    let registers = [0xABu8; 16];
    let mut short = [7u8; 63];
    assert_eq!(rt;
        record_line(0, &registers, &mut short),
        Err(Refusal::ShortBuffer)
    );
    assert_eq!(rt; short, [7u8; 63]);
}

#[test]
fn fault_line_needs_64_bytes(rt: HostRuntime) {
    let mut short = [7u8; 63];
    assert_eq!(rt;
        fault_line(3, 6, Origin::Part, &mut short),
        Err(Refusal::ShortBuffer)
    );
    assert_eq!(rt; short, [7u8; 63]);
    let mut none = [0u8; 0];
    assert_eq!(rt;
        fault_line(3, 6, Origin::Part, &mut none),
        Err(Refusal::ShortBuffer)
    );
}

#[test]
fn record_line_of_zero(rt: HostRuntime) {
    let registers = [
        0x01, 0x23, 0x45, 0x67, 0x89, 0xAB, 0xCD, 0xEF, 0x10, 0x32, 0x54, 0x76, 0x98, 0xBA, 0xDC,
        0xFE,
    ];
    let mut out = [b'.'; 64];
    assert_eq!(rt; record_line(0, &registers, &mut out), Ok(35));
    assert_eq!(rt;
        out.as_slice(),
        b"0 0123456789ABCDEF1032547698BADCFE\n.............................".as_slice()
    );
}

#[test]
fn record_line_of_the_largest(rt: HostRuntime) {
    let registers = [0u8; 16];
    let mut out = [b'.'; 66];
    assert_eq!(rt; record_line(LARGEST, &registers, &mut out), Ok(54));
    assert_eq!(rt;
        out.as_slice(),
        b"18446744073709551615 00000000000000000000000000000000\n............".as_slice()
    );
}

#[test]
fn fault_lines(rt: HostRuntime) {
    let mut out = [b'.'; 64];
    assert_eq!(rt; fault_line(3, 6, Origin::Part, &mut out), Ok(21));
    assert_eq!(rt;
        out.as_slice(),
        b"fault 3 at 6 in part\n...........................................".as_slice()
    );
    assert_eq!(rt;
        fault_line(LARGEST, LARGEST, Origin::Tape, &mut out),
        Ok(59)
    );
    assert_eq!(rt;
        out.as_slice(),
        b"fault 18446744073709551615 at 18446744073709551615 in tape\n.....".as_slice()
    );
    assert_eq!(rt; fault_line(0, 0, Origin::Tape, &mut out), Ok(21));
    assert_eq!(rt;
        out.as_slice(),
        b"fault 0 at 0 in tape\n51615 at 18446744073709551615 in tape\n.....".as_slice()
    );
}

#[test]
fn who_refused_in_words(rt: HostRuntime) -> Result<(), Fail> {
    let words = format!(in rt.alloc(); "{} {}", Origin::Tape, Origin::Part)?;
    assert_eq!(rt; words.as_str(), "tape part");
    Ok(())
}
