// Single transfers: a header, then one byte. They keep a session open.
ghost use Rattle.std.specs.Prelude.{◌≡◌};
ghost use Rattle.rx5c348a.specs.Part.{seen};
ghost use Rattle.host_wires.specs.Record.{wired};
ghost use Rattle.host_wires.specs.Shifting.{byte_in, byte_out};
ghost use Rattle.host_sessions.specs.Sessions.{reading, writing, single_read, single_write};
ghost use Rattle.host_sessions.specs.Driven.{levels_of_read, levels_of_write, all_driven};
ghost use Rattle.host_sessions.specs.Laws.{ReadIsWhatStands, WrittenArrives};

use crate::header::header_for;
use crate::open::OpenSession;
use crate::promises::{read_what_stands, write_to_arrive};
use crate::rest::Rest;
use host_wires::record::PinRecord;
use refusals::Refusal;
use rx5c348a::part::Rx5c348a;
use serial_transfer::phase::Format;

// A header in, then a byte out.
fn shift_register_out(pins: &mut PinRecord, part: &mut Rx5c348a, header: u8) -> u8
    ensures { (result, wired pins.new (seen part.new)) ≡ byte_out (byte_in header (wired pins.old (seen part.old))) }
{
    pins.shift_in(part, header);
    pins.shift_out(part)
}

// A header in, then a byte in.
fn shift_register_in(pins: &mut PinRecord, part: &mut Rx5c348a, header: u8, byte: u8)
    ensures { wired pins.new (seen part.new) ≡ byte_in byte (byte_in header (wired pins.old (seen part.old))) }
{
    pins.shift_in(part, header);
    pins.shift_in(part, byte);
}

pub(crate) fn read_single(
    pins: &mut PinRecord,
    part: &mut Rx5c348a,
    address: u32,
) -> Result<u8, Refusal>
    ensures { (result, wired pins.new (seen part.new)) ≡ reading address (wired pins.old (seen part.old)) }
{
    let rest = Rest { pins };
    let header = header_for(part, address, Format::SingleRead)?;
    Ok(shift_register_out(rest.pins, part, header))
}

pub(crate) fn write_single(
    pins: &mut PinRecord,
    part: &mut Rx5c348a,
    address: u32,
    byte: u8,
) -> Result<(), Refusal>
    ensures { (result, wired pins.new (seen part.new)) ≡ writing address byte (wired pins.old (seen part.old)) }
{
    let rest = Rest { pins };
    let header = header_for(part, address, Format::SingleWrite)?;
    shift_register_in(rest.pins, part, header, byte);
    Ok(())
}

impl OpenSession {
    // The byte of a register.
    pub fn read(&mut self, part: &mut Rx5c348a, address: u32) -> Result<u8, Refusal>
        ensures value { (result, wired self.new.pins (seen part.new)) ≡ single_read address (wired self.old.pins (seen part.old)) }
        ensures law { ReadIsWhatStands address (seen part.old) result (seen part.new) }
        ensures driven { seen part.new ≡ all_driven (levels_of_read address (seen part.old)) (seen part.old) }
    {
        read_what_stands(&mut self.pins, part, address)
    }

    // A byte to a register, by that register's rule.
    pub fn write(&mut self, part: &mut Rx5c348a, address: u32, byte: u8) -> Result<(), Refusal>
        ensures value { (result, wired self.new.pins (seen part.new)) ≡ single_write address byte (wired self.old.pins (seen part.old)) }
        ensures law { WrittenArrives address byte (seen part.old) result (seen part.new) }
        ensures driven { seen part.new ≡ all_driven (levels_of_write address byte (seen part.old)) (seen part.old) }
    {
        write_to_arrive(&mut self.pins, part, address, byte)
    }
}
