// The four formats as the chip is described by them, level by level.
use crate::host::*;
use std::test::Fail;

// A write of Fh, then one of 7.
#[test]
fn single_writes(rt: HostRuntime) -> Result<(), Fail> {
    let mut part = part_at(0, TWENTY_FOUR)?;
    follow(
        &rt,
        &mut part,
        b"4 7575757575646464 6464756475646464 6475757575646464 6464646464757575 0",
        b"2 2222222222222222 2222222222222222 2222222222222222 2222222222222222 2",
    )?;
    expect_registers(
        &rt,
        &part,
        [
            0, 0, 0, 5, 0x17, 0x87, 0x26, 0x07, 0, 0, 0, 0, 0, 0, 0x20, 0x28,
        ],
    )
}

// Eh, Fh and 0 in one burst.
#[test]
fn burst_write(rt: HostRuntime) -> Result<(), Fail> {
    let mut part = part_at(0, TWELVE)?;
    follow(
        &rt,
        &mut part,
        b"4 7575756464646464 7564756464646464 6464756464646464 6475647575646475 0",
        b"2 2222222222222222 2222222222222222 2222222222222222 2222222222222222 2",
    )?;
    expect_registers(
        &rt,
        &part,
        [
            0x59, 0, 0x12, 5, 0x17, 0x87, 0x26, 0, 0, 0, 0, 0, 0, 0, 0xA0, 0x20,
        ],
    )
}

// A read of Eh, then one of 2: SO is off over the headers, and from each eighth data fall on.
#[test]
fn single_reads(rt: HostRuntime) -> Result<(), Fail> {
    let mut part = part_at(50_399, TWENTY_FOUR)?;
    follow(
        &rt,
        &mut part,
        b"4 7575756475756464 6464646464646464 6464756475756464 6464646464646464 0",
        b"2 2222222222222222 0000110000000002 2222222222222222 0000001100001112 2",
    )
}

// Fh, 0 and 1 in one burst: SO keeps its bit between the bytes, and is off once CE has fallen.
#[test]
fn burst_read(rt: HostRuntime) -> Result<(), Fail> {
    let mut part = part_at(50_399, TWENTY_FOUR)?;
    halt(&mut part);
    follow(
        &rt,
        &mut part,
        b"4 7575757564756464 6464646464646464 6464646464646464 6464646464646464 0",
        b"2 2222222222222222 0000001100000000 0011001111000011 0011001111000011 2",
    )
}

// Fh is read, XSTP is found set, and Fh is written with SCRATCH1 alone, all with CE high.
#[test]
fn read_change_write(rt: HostRuntime) -> Result<(), Fail> {
    let mut part = part_at(50_399, TWENTY_FOUR)?;
    halt(&mut part);
    follow(
        &rt,
        &mut part,
        b"4 7575757575756464 6464646464646464 7575757575646464 6464756464646464 0",
        b"2 2222222222222222 0000001100000002 2222222222222222 2222222222222222 2",
    )?;
    expect_register(&rt, &mut part, 0xF, 0x20)
}

// The bytes of a burst written, read back singly and in a burst.
#[test]
fn what_is_written_is_read(rt: HostRuntime) -> Result<(), Fail> {
    let bytes = [
        0x45, 0x23, 0x21, 0x03, 0x09, 0x92, 0x99, 0x2A, 0x59, 0x11, 0x3E, 0x30, 0x13, 0x00, 0xB5,
        0x8C,
    ];
    let mut part = part_at(0, TWENTY_FOUR)?;
    write_burst(&mut part, 0, &bytes)?;
    expect_registers(&rt, &part, bytes)?;
    for (address, byte) in (0..16u8).zip(bytes) {
        expect_register(&rt, &mut part, address, byte)?;
    }
    open(&mut part, 0, BURST_READ)?;
    for byte in bytes {
        expect_byte(&rt, &mut part, byte)?;
    }
    expect_pins(&rt, &mut part, 0, (OFF, 1))
}
