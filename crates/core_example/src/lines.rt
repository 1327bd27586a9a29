// How a call and its answer are printed. The words are this program's own, so they are no Display of the calls.
use byte_map::map::ByteMap;
use clock_core::clock::ClockCore;
use refusals::Refusal;
use register_map::hour_mode::HourMode;
use std::io;
use timekeeping::call::{CoreAnswer, CoreCall};

pub(crate) fn print_call(rt: &HostRuntime, call: CoreCall) -> io::Result<()> {
    match call {
        CoreCall::Pulses(count) => print!(rt; "pulses {count}: "),
        CoreCall::Hold => print!(rt; "hold: "),
        CoreCall::Release => print!(rt; "release: "),
        CoreCall::Read(cell) => print!(rt; "read cell {cell}: "),
        CoreCall::Write(cell, byte) => print!(rt; "write cell {cell} byte {byte:02X}h: "),
        CoreCall::Look(room) => print!(rt; "look with {room} bytes: "),
        CoreCall::SetTrim(byte) => print!(rt; "set trim {byte:02X}h: "),
        CoreCall::SetHourMode(HourMode::Twelve) => print!(rt; "set 12-hour mode: "),
        CoreCall::SetHourMode(HourMode::TwentyFour) => print!(rt; "set 24-hour mode: "),
        CoreCall::RestartSecond => print!(rt; "restart the second: "),
    }
}

// The cells are packed decimal, so their hexadecimal digits are the digits of the date and time.
fn print_registers(rt: &HostRuntime, registers: [u8; 16]) -> io::Result<()> {
    let [second, minute, hour, weekday, day, month, year, ..] = registers;
    let century = if month < 0x80 { 19 } else { 20 };
    let month = month % 0x80;
    println!(rt;
        "{century}{year:02X}-{month:02X}-{day:02X} weekday {weekday} {hour:02X}:{minute:02X}:{second:02X}"
    )
}

pub(crate) fn print_answer(
    rt: &HostRuntime,
    answer: Result<CoreAnswer, Refusal>,
) -> io::Result<()> {
    match answer {
        Ok(CoreAnswer::Accepted) => println!(rt; "accepted"),
        Ok(CoreAnswer::Byte(byte)) => println!(rt; "{byte:02X}h"),
        Ok(CoreAnswer::Registers(registers)) => print_registers(rt, registers),
        Err(why) => println!(rt; "{why}"),
    }
}

// Where the core stands in its second.
pub(crate) fn print_core(rt: &HostRuntime, core: &ClockCore<ByteMap>) -> io::Result<()> {
    let position = core.position;
    let length = core.second_length;
    println!(rt; "at pulse {position} of a second of {length}")
}
