// A host of a 348A: it sets the time and an alarm, reads the time across a carry, sees /INTR and clears it.
#![tactic(auto)]

mod host;
mod lines;

use host::{
    ALARM_W, CONTROL, FLAGS, clear_flags, read_register, read_registers, read_time_slowly,
    write_register, write_registers,
};
use lines::{print_accepted, print_byte, print_interrupt, print_time};
use rx5c348a::part::Rx5c348a;

const SECOND: u64 = 32_768;

// 13:59:58 on 17 July 2026, a Friday: the seven cells, and no trim.
const TIME: [u8; 8] = [0x58, 0x59, 0x13, 0x05, 0x17, 0x87, 0x26, 0x00];

// 14:00 on Fridays.
const ALARM: [u8; 3] = [0x00, 0x14, 0x20];

// Bits of Eh and Fh.
const HOURS_24: u8 = 0x20;

const WALE: u8 = 0x80;

const XSTP: u8 = 0x10;

const WAFG: u8 = 0x02;

// Mode, time and alarm of a part that has just got its supply.
fn set_up(rt: &HostRuntime, part: &mut Rx5c348a) -> anyhow::Result<()> {
    print!(rt; "flags at power-on: ")?;
    print_byte(rt, read_register(part, FLAGS))?;
    print!(rt; "clear XSTP: ")?;
    print_accepted(rt, clear_flags(part, XSTP))?;
    print!(rt; "24-hour mode: ")?;
    print_accepted(rt, write_register(part, CONTROL, HOURS_24))?;
    let moved = write_registers(part, 0, &TIME);
    println!(rt; "set the time: {moved} bytes")?;
    let moved = write_registers(part, ALARM_W, &ALARM);
    println!(rt; "set Alarm_W: {moved} bytes")?;
    print!(rt; "enable Alarm_W: ")?;
    print_accepted(rt, write_register(part, CONTROL, HOURS_24 + WALE))?;
    Ok(())
}

// A burst of all sixteen registers.
fn show_registers(rt: &HostRuntime, part: &mut Rx5c348a) -> anyhow::Result<()> {
    let mut registers = [0u8; 16];
    let moved = read_registers(part, 0, &mut registers);
    print!(rt; "{moved} registers:")?;
    for byte in registers {
        print!(rt; " {byte:02X}")?;
    }
    println!(rt; "")?;
    Ok(())
}

// The hour ends while a session is open, so the time read is whole, and the alarm rings as the session closes.
fn cross_the_hour(rt: &HostRuntime, part: &mut Rx5c348a) -> anyhow::Result<()> {
    print!(rt; "a second later: ")?;
    print_accepted(rt, part.pulses(SECOND))?;
    print_interrupt(rt, part)?;
    print!(rt; "read across the carry: ")?;
    print_time(rt, read_time_slowly(part, SECOND / 2))?;
    print_interrupt(rt, part)?;
    print!(rt; "read again: ")?;
    print_time(rt, read_time_slowly(part, 0))?;
    print!(rt; "flags: ")?;
    print_byte(rt, read_register(part, FLAGS))?;
    print!(rt; "clear WAFG: ")?;
    print_accepted(rt, clear_flags(part, WAFG))?;
    print_interrupt(rt, part)?;
    Ok(())
}

fn run(rt: &HostRuntime) -> anyhow::Result<()> {
    let mut part = Rx5c348a::power_on();
    set_up(rt, &mut part)?;
    show_registers(rt, &mut part)?;
    cross_the_hour(rt, &mut part)?;
    show_registers(rt, &mut part)?;
    print!(rt; "register 16: ")?;
    print_byte(rt, read_register(&mut part, 16))?;
    Ok(())
}

fn main(rt: HostRuntime) -> anyhow::Result<()> {
    run(&rt)
}
