// A host on the four wires, bit by bit, and parts for it.
use clock_core::setting::Setting;
use rx5c348a::part::Rx5c348a;
use std::process::Abort;
use std::test::Fail;

// 17 July 2026, 00:00:00, a Friday: 36,525 days from 1900 to 2000, and 9,694 days more.
pub(crate) const MIDNIGHT: u64 = 86_400 * (36_525 + 9_694);

pub(crate) const FRIDAY: u32 = 5;

pub(crate) const SECOND: u64 = 32_768;

// Hour modes as load numbers them.
pub(crate) const TWELVE: u32 = 0;

pub(crate) const TWENTY_FOUR: u32 = 1;

// Pin levels and formats as the chip's makers have them, apart from the part's own.
pub(crate) const CE: u64 = 4;

pub(crate) const SCLK: u64 = 2;

// SO when it is off.
pub(crate) const OFF: u8 = 2;

pub(crate) const SINGLE_WRITE: u8 = 0x8;

pub(crate) const BURST_WRITE: u8 = 0x0;

pub(crate) const SINGLE_READ: u8 = 0xC;

pub(crate) const BURST_READ: u8 = 0x4;

// A part that has just been powered on.
pub(crate) fn fresh_part() -> Rx5c348a {
    Rx5c348a::power_on()
}

// A part that was loaded with a time of that day, in seconds since midnight, with no trim.
pub(crate) fn part_at(time: u32, mode: u32) -> Result<Rx5c348a, Fail> {
    let mut part = fresh_part();
    part.load(Setting {
        moment: MIDNIGHT + u64::from(time % 86_400),
        weekday: FRIDAY,
        trim: 0,
        mode,
    })?;
    Ok(part)
}

pub(crate) fn halt(part: &mut Rx5c348a) {
    part.halt();
}

pub(crate) fn run(part: &mut Rx5c348a, pulses: u64) -> Result<(), Fail> {
    part.pulses(pulses)?;
    Ok(())
}

// Registers 0 to 6 of a time of that day.
pub(crate) fn on_friday(time: [u8; 3]) -> [u8; 7] {
    let [second, minute, hour] = time;
    [second, minute, hour, 0x05, 0x17, 0x87, 0x26]
}

// New levels; answers SO and /INTR as numbers.
pub(crate) fn drive(part: &mut Rx5c348a, levels: u64) -> Result<(u8, u8), Fail> {
    let answer = part.pins(levels)?;
    Ok((u8::from(answer.so), u8::from(answer.intr)))
}

pub(crate) fn raise_ce(part: &mut Rx5c348a) -> Result<(), Fail> {
    drive(part, CE)?;
    Ok(())
}

// Answers SO and /INTR as numbers.
pub(crate) fn lower_ce(part: &mut Rx5c348a) -> Result<(u8, u8), Fail> {
    drive(part, 0)
}

// Pulses SCLK with SI at one bit; answers SO after its rise and after its fall.
pub(crate) fn clock(part: &mut Rx5c348a, si: u8) -> Result<(u8, u8), Fail> {
    let (high, _) = drive(part, CE + SCLK + u64::from(si % 2))?;
    let (low, _) = drive(part, CE + u64::from(si % 2))?;
    Ok((high, low))
}

// The bits of a byte, highest first.
pub(crate) fn bits(byte: u8) -> [u8; 8] {
    [7u8, 6, 5, 4, 3, 2, 1, 0].map(|place| (byte >> (place % 8)) & 1)
}

// A byte on SI, highest bit first.
pub(crate) fn byte_in(part: &mut Rx5c348a, byte: u8) -> Result<(), Fail> {
    for bit in bits(byte) {
        clock(part, bit)?;
    }
    Ok(())
}

pub(crate) fn header(part: &mut Rx5c348a, address: u8, format: u8) -> Result<(), Fail> {
    byte_in(part, 16 * (address % 16) + format % 16)
}

// CE rises, and a header is sent.
pub(crate) fn open(part: &mut Rx5c348a, address: u8, format: u8) -> Result<(), Fail> {
    raise_ce(part)?;
    header(part, address, format)
}

// So many bits of 1.
pub(crate) fn ones(part: &mut Rx5c348a, count: u8) -> Result<(), Fail> {
    for _ in 0..count {
        clock(part, 1)?;
    }
    Ok(())
}

// A byte from SO, highest bit first.
pub(crate) fn byte_out(rt: &impl Abort, part: &mut Rx5c348a) -> Result<u8, Fail> {
    let mut byte = 0u8;
    for _ in 0..8u8 {
        let (so, _) = clock(part, 0)?;
        assert!(rt; so < 2);
        byte = (byte << 1) | so;
    }
    Ok(byte)
}

// One register written with CE high for it alone.
pub(crate) fn write_register(part: &mut Rx5c348a, address: u8, byte: u8) -> Result<(), Fail> {
    open(part, address, SINGLE_WRITE)?;
    byte_in(part, byte)?;
    lower_ce(part)?;
    Ok(())
}

// One register read with CE high for it alone.
pub(crate) fn read_register(rt: &impl Abort, part: &mut Rx5c348a, address: u8) -> Result<u8, Fail> {
    open(part, address, SINGLE_READ)?;
    let byte = byte_out(rt, part)?;
    lower_ce(part)?;
    Ok(byte)
}

// A burst write with CE high for it alone.
pub(crate) fn write_burst(part: &mut Rx5c348a, address: u8, bytes: &[u8]) -> Result<(), Fail> {
    open(part, address, BURST_WRITE)?;
    for byte in bytes {
        byte_in(part, *byte)?;
    }
    lower_ce(part)?;
    Ok(())
}

// Levels, one digit each, and the SO that each answers, another digit; spaces stand between bytes.
// Two rows, so that an edge and its SO stand in one column.
pub(crate) fn follow(
    rt: &impl Abort,
    part: &mut Rx5c348a,
    levels: &[u8],
    outs: &[u8],
) -> Result<(), Fail> {
    assert_eq!(rt; levels.len(), outs.len());
    for (level, out) in levels.iter().zip(outs.iter()) {
        if *level != b' ' {
            let (so, _) = drive(part, u64::from(level.wrapping_sub(b'0')))?;
            assert_eq!(rt; so, out.wrapping_sub(b'0'));
        }
    }
    Ok(())
}

// Registers 0 to Fh, copied at once.
pub(crate) fn registers_of(part: &Rx5c348a) -> Result<[u8; 16], Fail> {
    let mut registers = [0u8; 16];
    part.look(&mut registers)?;
    Ok(registers)
}

// Registers 0 to 6, copied at once.
pub(crate) fn time_of(part: &Rx5c348a) -> Result<[u8; 7], Fail> {
    let [a, b, c, d, e, f, g, ..] = registers_of(part)?;
    Ok([a, b, c, d, e, f, g])
}

// Position, length, held and waiting.
pub(crate) type Running = (u32, u32, bool, bool);

pub(crate) fn running_of(part: &Rx5c348a) -> Running {
    let core = &part.registers.core;
    (
        core.position,
        core.second_length,
        core.is_held(),
        core.boundary_waits(),
    )
}

// CE, SCLK, whether a header is awaited, SO and /INTR.
pub(crate) type Wires = (bool, bool, bool, u8, u8);

pub(crate) fn wires_of(part: &Rx5c348a) -> Wires {
    let answer = part.answer();
    (
        part.ce,
        part.sclk,
        part.awaits_header(),
        u8::from(answer.so),
        u8::from(answer.intr),
    )
}

// What a refused call could have changed, but for the bits of a byte under way.
pub(crate) fn all_of(part: &Rx5c348a) -> Result<([u8; 16], Running, Wires), Fail> {
    Ok((registers_of(part)?, running_of(part), wires_of(part)))
}

// Each looks at one thing: a test is then a short row of calls, since a long one takes long to prove.

// New levels, and the SO and /INTR that they answer.
pub(crate) fn expect_pins(
    rt: &impl Abort,
    part: &mut Rx5c348a,
    levels: u64,
    answer: (u8, u8),
) -> Result<(), Fail> {
    assert_eq!(rt; drive(part, levels)?, answer);
    Ok(())
}

pub(crate) fn expect_byte(rt: &impl Abort, part: &mut Rx5c348a, byte: u8) -> Result<(), Fail> {
    assert_eq!(rt; byte_out(rt, part)?, byte);
    Ok(())
}

pub(crate) fn expect_register(
    rt: &impl Abort,
    part: &mut Rx5c348a,
    address: u8,
    byte: u8,
) -> Result<(), Fail> {
    assert_eq!(rt; read_register(rt, part, address)?, byte);
    Ok(())
}

// A register as it stands, not read by the wires.
pub(crate) fn expect_stands(rt: &impl Abort, part: &Rx5c348a, address: u8, byte: u8) {
    assert_eq!(rt; part.registers.read(address), byte);
}

pub(crate) fn expect_registers(
    rt: &impl Abort,
    part: &Rx5c348a,
    registers: [u8; 16],
) -> Result<(), Fail> {
    assert_eq!(rt; registers_of(part)?, registers);
    Ok(())
}

pub(crate) fn expect_time(rt: &impl Abort, part: &Rx5c348a, time: [u8; 7]) -> Result<(), Fail> {
    assert_eq!(rt; time_of(part)?, time);
    Ok(())
}

pub(crate) fn expect_running(rt: &impl Abort, part: &Rx5c348a, running: Running) {
    assert_eq!(rt; running_of(part), running);
}

pub(crate) fn expect_wires(rt: &impl Abort, part: &Rx5c348a, wires: Wires) {
    assert_eq!(rt; wires_of(part), wires);
}

pub(crate) fn expect_all(
    rt: &impl Abort,
    part: &Rx5c348a,
    all: ([u8; 16], Running, Wires),
) -> Result<(), Fail> {
    assert_eq!(rt; all_of(part)?, all);
    Ok(())
}
