// What is printed. The words are this program's own, so they are no Display of the calls.
use crate::calls::{FIRST_HOST, SECOND_HOST};
use host_runs::call::{HostAnswer, HostCall, SessionCall};
use refusals::Refusal;
use rx5c348a_runs::call::{WireAnswer, WireCall};

fn print_host(rt: &HostRuntime, number: usize) -> anyhow::Result<()> {
    match number {
        FIRST_HOST => print!(rt; "first host: ")?,
        SECOND_HOST => print!(rt; "second host: ")?,
        _ => print!(rt; "host {number}: ")?,
    }
    Ok(())
}

fn print_session_call(rt: &HostRuntime, call: SessionCall<'_>) -> anyhow::Result<()> {
    match call {
        SessionCall::Open => print!(rt; "open")?,
        SessionCall::Close => print!(rt; "close")?,
        SessionCall::Read(address) => print!(rt; "read {address}")?,
        SessionCall::Write(address, byte) => print!(rt; "write {address} {byte:02X}h")?,
        SessionCall::BurstRead(address, count) => print!(rt;
            "burst read {address}, {count} bytes"
        )?,
        SessionCall::BurstWrite(address, bytes) => {
            let count = bytes.len();
            print!(rt; "burst write {address}, {count} bytes")?;
        }
    }
    Ok(())
}

pub(crate) fn print_call(rt: &HostRuntime, call: HostCall<'_>) -> anyhow::Result<()> {
    match call {
        HostCall::Wire(WireCall::Load(to)) => {
            print!(rt; "load {} {} {} {}", to.moment, to.weekday, to.trim, to.mode)?
        }
        HostCall::Wire(WireCall::Pulses(count)) => print!(rt; "pulses {count}")?,
        HostCall::Wire(WireCall::Pins(levels)) => print!(rt; "pins {levels}")?,
        HostCall::Wire(WireCall::Look(room)) => print!(rt; "look, {room} bytes")?,
        HostCall::Session(number, call) => {
            print_host(rt, number)?;
            print_session_call(rt, call)?;
        }
    }
    Ok(())
}

// The rest of a line of bytes.
fn print_bytes(rt: &HostRuntime, bytes: &[u8]) -> anyhow::Result<()> {
    for byte in bytes {
        print!(rt; " {byte:02X}")?;
    }
    println!(rt; "")?;
    Ok(())
}

fn print_wire_answer(rt: &HostRuntime, answer: WireAnswer) -> anyhow::Result<()> {
    match answer {
        WireAnswer::Accepted => println!(rt; ": accepted")?,
        WireAnswer::Levels(levels) => {
            let so = u8::from(levels.so);
            let intr = u8::from(levels.intr);
            println!(rt; ": SO {so}, /INTR {intr}")?;
        }
        WireAnswer::Registers(row) => {
            print!(rt; ":")?;
            print_bytes(rt, &row)?;
        }
    }
    Ok(())
}

pub(crate) fn print_answer(
    rt: &HostRuntime,
    answer: Result<HostAnswer, Refusal>,
) -> anyhow::Result<()> {
    match answer {
        Ok(HostAnswer::Wire(answer)) => print_wire_answer(rt, answer)?,
        Ok(HostAnswer::Done) => println!(rt; ": done")?,
        Ok(HostAnswer::Byte(byte)) => println!(rt; ": {byte:02X}h")?,
        Ok(HostAnswer::Moved(count)) => println!(rt; ": {count} bytes moved")?,
        Ok(HostAnswer::DoesNotBuild) => println!(rt; ": does not build")?,
        Ok(HostAnswer::NoSuchSession) => println!(rt; ": no such session")?,
        Err(why) => println!(rt; ": {why}")?,
    }
    Ok(())
}

pub(crate) fn print_buffer(rt: &HostRuntime, buffer: &[u8; 7]) -> anyhow::Result<()> {
    print!(rt; "read by the burst:")?;
    print_bytes(rt, buffer)
}
