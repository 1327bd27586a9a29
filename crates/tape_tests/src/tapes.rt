// What the bench prints of whole tapes.
use crate::printout::prints;
use std::alloc::Global;
use std::test::Fail;

#[test]
fn good_tapes(rt: HostRuntime) -> Result<(), Fail> {
    const CASES: [(&[u8], &[u8]); 9] = [
        // nothing to do
        (b"", b""),
        // a single group of 0
        (b"\x4C\x00", b"0 00000000000000000000000000000010\n"),
        // one group
        (b"\x4C\x07", b"7 00000000000000000000000000000010\n"),
        // the largest of one group, and the smallest of two
        (
            b"\x4C\x7F\x4C\x80\x01",
            b"127 00000000000000000000000000000010\n128 00000000000000000000000000000010\n",
        ),
        // five groups
        (
            b"\x4C\x80\x80\x80\x80\x01",
            b"268435456 00000000000000000000000000000010\n",
        ),
        // the largest number
        (
            b"\x4C\xFF\xFF\xFF\xFF\x7F",
            b"34359738367 00000000000000000000000000000010\n",
        ),
        // pulses and prints in order
        (
            b"\x50\x00\x4C\x01\x50\x03\x4C\x02",
            b"1 00000000000000000000000000000010\n2 00000000000000000000000000000010\n",
        ),
        // as many pulses as a call takes
        (b"\x50\x80\x80\x40", b""),
        // the last moment
        (b"\x4D\xFF\xCD\xC8\xC1\x17", b""),
    ];
    for (tape, expected) in CASES {
        prints(&rt, rt.alloc(), tape, expected)?;
    }
    Ok(())
}

#[test]
fn broken_off(rt: HostRuntime) -> Result<(), Fail> {
    const CASES: [(&[u8], &[u8]); 12] = [
        // after a kind byte
        (b"\x4C", b"fault 12 at 0 in tape\n"),
        // after a kind byte
        (b"\x4D", b"fault 12 at 0 in tape\n"),
        // after a kind byte
        (b"\x50", b"fault 12 at 0 in tape\n"),
        // after a kind byte
        (b"\x57", b"fault 12 at 0 in tape\n"),
        // pin levels that go on, after one group and after four
        (b"\x57\x84", b"fault 12 at 0 in tape\n"),
        (b"\x57\x04\x57\x80\x80\x80\x80", b"fault 12 at 2 in tape\n"),
        // after one group with bit 7 set
        (b"\x4C\x80", b"fault 12 at 0 in tape\n"),
        // after two
        (b"\x4C\x80\xFF", b"fault 12 at 0 in tape\n"),
        // after three
        (b"\x4C\x80\x80\x80", b"fault 12 at 0 in tape\n"),
        // after four
        (b"\x4C\xFF\xFF\xFF\xFF", b"fault 12 at 0 in tape\n"),
        // what the whole records before printed stays
        (
            b"\x50\x01\x4C\x05\x50\x02\x4C",
            b"5 00000000000000000000000000000010\nfault 12 at 6 in tape\n",
        ),
        // in a number after whole records
        (
            b"\x4C\x05\x4D\x80\xA7",
            b"5 00000000000000000000000000000010\nfault 12 at 2 in tape\n",
        ),
    ];
    for (tape, expected) in CASES {
        prints(&rt, rt.alloc(), tape, expected)?;
    }
    Ok(())
}

#[test]
fn bad_numbers(rt: HostRuntime) -> Result<(), Fail> {
    const CASES: [(&[u8], &[u8]); 7] = [
        // five groups with bit 7 set at the very end
        (b"\x4C\x80\x80\x80\x80\x80", b"fault 13 at 0 in tape\n"),
        // and in the middle
        (
            b"\x4C\xFF\xFF\xFF\xFF\xFF\x01\x4C\x07",
            b"fault 13 at 0 in tape\n",
        ),
        // a padded second group
        (b"\x4C\x80\x00", b"fault 13 at 0 in tape\n"),
        // pin levels, padded
        (b"\x57\x84\x00", b"fault 13 at 0 in tape\n"),
        // a padded third group
        (b"\x50\x81\x80\x00", b"fault 13 at 0 in tape\n"),
        // a padded fifth group
        (b"\x4D\xFF\xFF\xFF\xFF\x00", b"fault 13 at 0 in tape\n"),
        // after a print
        (
            b"\x4C\x09\x50\x80\x00\x4C\x0A",
            b"9 00000000000000000000000000000010\nfault 13 at 2 in tape\n",
        ),
    ];
    for (tape, expected) in CASES {
        prints(&rt, rt.alloc(), tape, expected)?;
    }
    Ok(())
}

#[test]
fn unknown_kinds(rt: HostRuntime) -> Result<(), Fail> {
    const CASES: [(&[u8], &[u8]); 5] = [
        // at the very end
        (b"\x00", b"fault 11 at 0 in tape\n"),
        // whatever follows
        (b"\x4E\xFF\xFF\xFF\xFF\xFF", b"fault 11 at 0 in tape\n"),
        // next to the kind of pin levels
        (b"\x56\x00", b"fault 11 at 0 in tape\n"),
        // after whole records
        (
            b"\x4C\x01\x58\x4C\x02",
            b"1 00000000000000000000000000000010\nfault 11 at 2 in tape\n",
        ),
        // at the end after whole records
        (
            b"\x4C\x01\x50\x01\xCC",
            b"1 00000000000000000000000000000010\nfault 11 at 4 in tape\n",
        ),
    ];
    for (tape, expected) in CASES {
        prints(&rt, rt.alloc(), tape, expected)?;
    }
    Ok(())
}

#[test]
fn refused_by_the_part(rt: HostRuntime) -> Result<(), Fail> {
    const CASES: [(&[u8], &[u8]); 6] = [
        // the largest number as a moment
        (b"\x4D\xFF\xFF\xFF\xFF\x7F", b"fault 1 at 0 in part\n"),
        // the first moment past the cycle
        (b"\x4D\x80\xCE\xC8\xC1\x17", b"fault 1 at 0 in part\n"),
        // the largest number as pulses
        (b"\x50\xFF\xFF\xFF\xFF\x7F", b"fault 3 at 0 in part\n"),
        // one pulse too many
        (b"\x50\x81\x80\x40", b"fault 3 at 0 in part\n"),
        // a number of 33 bits is not cut to 32
        (b"\x50\x80\x80\x80\x80\x10", b"fault 3 at 0 in part\n"),
        // after whole records, and nothing after it is done
        (
            b"\x4C\x07\x50\x01\x50\x01\x50\x81\x80\x40\x4C\x08",
            b"7 00000000000000000000000000000010\nfault 3 at 6 in part\n",
        ),
    ];
    for (tape, expected) in CASES {
        prints(&rt, rt.alloc(), tape, expected)?;
    }
    Ok(())
}

#[test]
fn on_the_part(rt: HostRuntime) -> Result<(), Fail> {
    const CASES: [(&[u8], &[u8]); 6] = [
        // one second into 1 January 2000
        (
            b"\x4D\x80\xA7\xE4\xE0\x0B\x50\x80\x80\x02\x4C\x07",
            b"7 01000006018100000000000000002000\n",
        ),
        // the first moment
        (b"\x4D\x00\x4C\x00", b"0 00000000010100000000000000002000\n"),
        // the last moment, and a second later the first; the weekday goes on
        (
            b"\x4D\xFF\xCD\xC8\xC1\x17\x4C\x01\x50\x80\x80\x02\x4C\x02",
            b"1 59592304319299000000000000002000\n2 00000005010100000000000000002000\n",
        ),
        // 29 February 1900
        (
            b"\x4D\x80\x91\xB7\x02\x4C\x03",
            b"3 00000003290200000000000000002000\n",
        ),
        // one pulse short of a second, and the second
        (
            b"\x4D\x00\x50\xFF\xFF\x01\x4C\x01\x50\x01\x4C\x02",
            b"1 00000000010100000000000000002000\n2 01000000010100000000000000002000\n",
        ),
        // a refused load ends the tape
        (
            b"\x4D\x00\x4C\x01\x4D\x80\xCE\xC8\xC1\x17\x4C\x02",
            b"1 00000000010100000000000000002000\nfault 1 at 4 in part\n",
        ),
    ];
    for (tape, expected) in CASES {
        prints(&rt, rt.alloc(), tape, expected)?;
    }
    Ok(())
}

// As many records of no pulses as `count` says, and then a print record.
fn long_tape(heap: Global, count: usize) -> Result<Vec<u8>, Fail> {
    let mut tape = b"\x50\x00".repeat(heap, count)?;
    tape.extend_from_slice(b"\x4C\x05")?;
    Ok(tape)
}

#[test]
fn longest_tape(rt: HostRuntime) -> Result<(), Fail> {
    let mut tape = long_tape(rt.alloc(), 2047)?;
    assert_eq!(rt; tape.len(), 4096);
    prints(
        &rt,
        rt.alloc(),
        &tape,
        b"5 00000000000000000000000000000010\n",
    )?;
    // one byte more, and nothing runs
    tape.push(0x4C)?;
    prints(&rt, rt.alloc(), &tape, b"fault 12 at 4096 in tape\n")?;
    let longer = long_tape(rt.alloc(), 4000)?;
    prints(&rt, rt.alloc(), &longer, b"fault 12 at 4096 in tape\n")
}
