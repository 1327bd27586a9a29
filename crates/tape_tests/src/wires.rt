// Tapes that drive the four wires.
use crate::printout::prints;
use std::alloc::Global;
use std::process::Abort;
use std::test::Fail;

// Pin levels are the sum of these and of SI, 1.
const CE: u8 = 4;

const SCLK: u8 = 2;

fn push_levels(tape: &mut Vec<u8>, levels: u8) -> Result<(), Fail> {
    tape.push(0x57)?;
    tape.push(levels)?;
    Ok(())
}

// The first bits of a byte, from the highest: two records for each, SCLK up and down, with CE high and SI at the bit.
fn push_bits(tape: &mut Vec<u8>, byte: u8, count: usize) -> Result<(), Fail> {
    let mut rest = byte;
    for _ in 0..count {
        let si = rest >> 7;
        push_levels(tape, CE | SCLK | si)?;
        push_levels(tape, CE | si)?;
        rest <<= 1;
    }
    Ok(())
}

// CE rises, bytes are shifted in, headers and data as they come, and CE falls.
fn push_exchange(tape: &mut Vec<u8>, bytes: &[u8]) -> Result<(), Fail> {
    push_levels(tape, CE)?;
    for byte in bytes {
        push_bits(tape, *byte, 8)?;
    }
    push_levels(tape, 0)
}

// A tape of records and exchanges in turn, and records at the end.
fn exchanges_print(
    rt: &impl Abort,
    heap: Global,
    exchanges: &[(&[u8], &[u8])],
    end: &[u8],
    expected: &[u8],
) -> Result<(), Fail> {
    let mut tape = Vec::new(heap);
    for (before, bytes) in exchanges {
        tape.extend_from_slice(before)?;
        push_exchange(&mut tape, bytes)?;
    }
    tape.extend_from_slice(end)?;
    prints(rt, heap, &tape, expected)
}

// The same with one exchange, after a load and before a look.
fn exchange_prints(
    rt: &impl Abort,
    heap: Global,
    bytes: &[u8],
    expected: &[u8],
) -> Result<(), Fail> {
    exchanges_print(rt, heap, &[(b"\x4D\x00", bytes)], b"\x4C\x01", expected)
}

// A write of the trim of which seven bits are in, and then records.
fn seven_bits_print(
    rt: &impl Abort,
    heap: Global,
    end: &[u8],
    expected: &[u8],
) -> Result<(), Fail> {
    let mut tape = Vec::new(heap);
    tape.extend_from_slice(b"\x4D\x00\x57\x04")?;
    push_bits(&mut tape, 0x78, 8)?;
    push_bits(&mut tape, 0xFE, 7)?;
    tape.extend_from_slice(end)?;
    prints(rt, heap, &tape, expected)
}

#[test]
fn accepted_levels(rt: HostRuntime) -> Result<(), Fail> {
    const CASES: [(&[u8], &[u8]); 4] = [
        // nothing is printed
        (b"\x57\x00", b""),
        // CE alone, then SCLK
        (
            b"\x57\x04\x57\x06\x4C\x01",
            b"1 00000000000000000000000000000010\n",
        ),
        // CE rises with SCLK high
        (
            b"\x57\x02\x57\x06\x57\x07\x57\x05\x4C\x01",
            b"1 00000000000000000000000000000010\n",
        ),
        // SI may change with either, and alone
        (
            b"\x57\x05\x57\x04\x57\x07\x57\x04\x57\x01\x57\x02\x4C\x01",
            b"1 00000000000000000000000000000010\n",
        ),
    ];
    for (tape, expected) in CASES {
        prints(&rt, rt.alloc(), tape, expected)?;
    }
    Ok(())
}

#[test]
fn refused_levels(rt: HostRuntime) -> Result<(), Fail> {
    const CASES: [(&[u8], &[u8]); 11] = [
        // the first level that there is not
        (b"\x57\x08", b"fault 4 at 0 in part\n"),
        // 256 is not cut to 0
        (b"\x57\x80\x02", b"fault 4 at 0 in part\n"),
        // nor is a number of 33 bits
        (b"\x57\x80\x80\x80\x80\x10", b"fault 4 at 0 in part\n"),
        // the largest number
        (b"\x57\xFF\xFF\xFF\xFF\x7F", b"fault 4 at 0 in part\n"),
        // CE and SCLK both rise
        (b"\x57\x06", b"fault 5 at 0 in part\n"),
        // with SI too
        (b"\x57\x07", b"fault 5 at 0 in part\n"),
        // one falls and the other rises
        (b"\x57\x04\x57\x02", b"fault 5 at 2 in part\n"),
        (b"\x57\x02\x57\x04", b"fault 5 at 2 in part\n"),
        // both fall
        (b"\x57\x04\x57\x06\x57\x00", b"fault 5 at 4 in part\n"),
        // levels over 7 are seen first
        (b"\x57\x0E", b"fault 4 at 0 in part\n"),
        // after whole records, and nothing after it is done
        (
            b"\x4C\x07\x57\x04\x57\x01\x57\x06\x4C\x08",
            b"7 00000000000000000000000000000010\nfault 5 at 6 in part\n",
        ),
    ];
    for (tape, expected) in CASES {
        prints(&rt, rt.alloc(), tape, expected)?;
    }
    Ok(())
}

#[test]
fn written_registers(rt: HostRuntime) -> Result<(), Fail> {
    const CASES: [(&[u8], &[u8]); 6] = [
        // a single write of the trim
        (&[0x78, 0x2A], b"1 000000000101002A0000000000002000\n"),
        // the highest bit comes first
        (&[0x78, 0x01], b"1 00000000010100010000000000002000\n"),
        // three headers under one CE
        (
            &[0x88, 0x45, 0x98, 0x06, 0xA8, 0x7F],
            b"1 000000000101000045067F0000002000\n",
        ),
        // a burst goes on with 0 after Fh
        (
            &[0xE0, 0xB7, 0x8C, 0x30, 0x15],
            b"1 3015000001010000000000000000B78C\n",
        ),
        // register Dh holds nothing
        (&[0xD8, 0xFF], b"1 00000000010100000000000000002000\n"),
        // all sixteen, unused bits cleared
        (
            &[
                0x00, 0xD6, 0xB4, 0xD2, 0xFD, 0xE9, 0xE2, 0x04, 0x87, 0x95, 0xC7, 0xFF, 0xC5, 0xE3,
                0xFF, 0xFF, 0xFC,
            ],
            b"1 563412052982040715077F452300F7AC\n",
        ),
    ];
    for (bytes, expected) in CASES {
        exchange_prints(&rt, rt.alloc(), bytes, expected)?;
    }
    Ok(())
}

#[test]
fn reads_leave_the_registers(rt: HostRuntime) -> Result<(), Fail> {
    const CASES: [(&[u8], &[u8]); 4] = [
        // a single read
        (&[0x0C, 0xFF], b"1 00000000010100000000000000002000\n"),
        // a burst read over the end
        (
            &[0xE4, 0xFF, 0xFF, 0xFF, 0xFF],
            b"1 00000000010100000000000000002000\n",
        ),
        // a header follows a single read
        (
            &[0x7C, 0xFF, 0x78, 0x16],
            b"1 00000000010100160000000000002000\n",
        ),
        // and none follows a burst read
        (
            &[0x74, 0xFF, 0x78, 0x16],
            b"1 00000000010100000000000000002000\n",
        ),
    ];
    for (bytes, expected) in CASES {
        exchange_prints(&rt, rt.alloc(), bytes, expected)?;
    }
    Ok(())
}

#[test]
fn byte_lands_at_its_eighth_fall(rt: HostRuntime) -> Result<(), Fail> {
    const CASES: [(&[u8], &[u8]); 3] = [
        // not at its eighth rise
        (
            b"\x57\x07\x4C\x01\x57\x05\x4C\x02",
            b"1 00000000010100000000000000002000\n2 000000000101007F0000000000002000\n",
        ),
        // the fall of CE drops it
        (b"\x57\x00\x4C\x01", b"1 00000000010100000000000000002000\n"),
        // refused levels are no fall
        (
            b"\x57\x07\x4C\x01\x57\x0D\x4C\x02",
            b"1 00000000010100000000000000002000\nfault 4 at 68 in part\n",
        ),
    ];
    for (end, expected) in CASES {
        seven_bits_print(&rt, rt.alloc(), end, expected)?;
    }
    Ok(())
}

#[test]
fn several_exchanges(rt: HostRuntime) -> Result<(), Fail> {
    const CASES: [(&[(&[u8], &[u8])], &[u8], &[u8]); 3] = [
        // format 9 is none: the part is deaf until CE falls
        (
            &[
                (b"\x4D\x00", &[0x79, 0x15, 0x78, 0x15]),
                (b"\x4C\x01", &[0x78, 0x15]),
            ],
            b"\x4C\x02",
            b"1 00000000010100000000000000002000\n2 00000000010100150000000000002000\n",
        ),
        // a load lowers CE, so that SCLK may rise, and no transfer is under way
        (
            &[(
                b"\x57\x04\x57\x06\x57\x04\x4D\x00\x57\x02\x57\x00",
                &[0x78, 0x15],
            )],
            b"\x4C\x01",
            b"1 00000000010100150000000000002000\n",
        ),
        // writing the seconds begins a second
        (
            &[(b"\x4D\x00\x50\xFF\xFF\x01", &[0x08, 0x00])],
            b"\x50\xFF\xFF\x01\x4C\x01\x50\x01\x4C\x02",
            b"1 00000000010100000000000000002000\n2 01000000010100000000000000002000\n",
        ),
    ];
    for (exchanges, end, expected) in CASES {
        exchanges_print(&rt, rt.alloc(), exchanges, end, expected)?;
    }
    Ok(())
}

#[test]
fn ce_holds_the_calendar(rt: HostRuntime) -> Result<(), Fail> {
    // two seconds pass, of which the first waits and the second is lost
    prints(
        &rt,
        rt.alloc(),
        b"\x4D\x3B\x57\x04\x50\x80\x80\x02\x4C\x01\x50\x80\x80\x02\x4C\x02\x57\x00\x4C\x03",
        b"1 59000000010100000000000000002000\n2 59000000010100000000000000002000\n3 00010000010100000000000000002000\n",
    )
}

#[test]
fn alarms(rt: HostRuntime) -> Result<(), Fail> {
    const CASES: [(&[(&[u8], &[u8])], &[u8], &[u8]); 3] = [
        // the example tape: from Saturday 06:59:59 on, Alarm_W at 07:00 on Saturdays and Alarm_D at 07:01
        (
            &[
                (
                    b"\x4D\xEF\xEB\xE5\xE0\x0B",
                    &[0x80, 0x00, 0x07, 0x40, 0x01, 0x07, 0x00, 0xE0],
                ),
                (
                    b"\x4C\x01\x50\x80\x80\x02\x4C\x02\x50\x80\x80\x3C\x50\x80\x80\x3C\x4C\x03",
                    &[0xF8, 0x00],
                ),
            ],
            b"\x4C\x04",
            b"1 5959060601810000000740010700E000\n2 0000070601810000000740010700E002\n3 0001070601810000000740010700E003\n4 0001070601810000000740010700E000\n",
        ),
        // a row that is disabled loses its flag; DAFG is cleared by 0, and WAFG not set by 1
        (
            &[
                (
                    b"\x4D\x3B",
                    &[0x80, 0x01, 0x00, 0x01, 0x01, 0x00, 0x00, 0xE0],
                ),
                (b"\x50\x80\x80\x02\x4C\x01", &[0xE8, 0x60]),
                (b"\x4C\x02", &[0xF8, 0x02]),
            ],
            b"\x4C\x03",
            b"1 0001000001010000010001010000E003\n2 00010000010100000100010100006001\n3 00010000010100000100010100006000\n",
        ),
        // a minute that waits rings at the fall of CE
        (
            &[(
                b"\x4D\x3B",
                &[0x80, 0x01, 0x00, 0x01, 0x00, 0x00, 0x00, 0xA0],
            )],
            b"\x57\x04\x50\x80\x80\x02\x4C\x01\x57\x00\x4C\x02",
            b"1 5900000001010000010001000000A000\n2 0001000001010000010001000000A002\n",
        ),
    ];
    for (exchanges, end, expected) in CASES {
        exchanges_print(&rt, rt.alloc(), exchanges, end, expected)?;
    }
    Ok(())
}

// Every byte a record of levels but the last print.
#[test]
fn longest_tape_of_levels(rt: HostRuntime) -> Result<(), Fail> {
    let mut tape = Vec::new(rt.alloc());
    for _ in 0..60 {
        push_exchange(&mut tape, &[0x78, 0x2A])?;
    }
    for _ in 0..7 {
        push_levels(&mut tape, 0)?;
    }
    tape.extend_from_slice(b"\x4C\x05")?;
    assert_eq!(rt; tape.len(), 4096);
    prints(
        &rt,
        rt.alloc(),
        &tape,
        b"5 000000000000002A0000000000000010\n",
    )
}
