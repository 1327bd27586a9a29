// Bursts: a header, then a whole buffer. A burst spends its session.
ghost use Rattle.std.specs.Prelude.{◌≡◌, length};
ghost use Rattle.rx5c348a.specs.Part.{seen};
ghost use Rattle.host_wires.specs.Record.{wired};
ghost use Rattle.host_wires.specs.Shifting.{byte_in, bytes_in, bytes_out};
ghost use Rattle.host_sessions.specs.Sessions.{burst_reading, burst_writing, burst_read, burst_write};
ghost use Rattle.host_sessions.specs.Driven.{levels_of_burst_read, levels_of_burst_write, all_driven};
ghost use Rattle.host_sessions.specs.Laws.{BurstIsWhatStands, BurstArrives};

use crate::header::header_for;
use crate::open::OpenSession;
use crate::promises::{burst_to_arrive, burst_what_stands};
use crate::rest::Rest;
use crate::spent::SpentSession;
use host_wires::record::PinRecord;
use rx5c348a::part::Rx5c348a;
use serial_transfer::phase::Format;

// A header in, then bytes out until the buffer is full.
fn shift_registers_out(pins: &mut PinRecord, part: &mut Rx5c348a, header: u8, buffer: &mut [u8])
    ensures { (buffer.new, wired pins.new (seen part.new)) ≡ bytes_out (length buffer.old) (byte_in header (wired pins.old (seen part.old))) }
{
    pins.shift_in(part, header);
    pins.shift_bytes_out(part, buffer);
}

// A header in, then bytes in.
fn shift_registers_in(pins: &mut PinRecord, part: &mut Rx5c348a, header: u8, bytes: &[u8])
    ensures { wired pins.new (seen part.new) ≡ bytes_in bytes.now (byte_in header (wired pins.old (seen part.old))) }
{
    pins.shift_in(part, header);
    pins.shift_bytes_in(part, bytes);
}

pub(crate) fn read_burst(
    pins: &mut PinRecord,
    part: &mut Rx5c348a,
    address: u32,
    buffer: &mut [u8],
) -> usize
    ensures { (result, buffer.new, wired pins.new (seen part.new)) ≡ burst_reading address buffer.old (wired pins.old (seen part.old)) }
{
    let rest = Rest { pins };
    let Ok(header) = header_for(part, address, Format::BurstRead) else {
        return 0;
    };
    shift_registers_out(rest.pins, part, header, buffer);
    buffer.len()
}

pub(crate) fn write_burst(
    pins: &mut PinRecord,
    part: &mut Rx5c348a,
    address: u32,
    bytes: &[u8],
) -> usize
    ensures { (result, wired pins.new (seen part.new)) ≡ burst_writing address bytes.now (wired pins.old (seen part.old)) }
{
    let rest = Rest { pins };
    let Ok(header) = header_for(part, address, Format::BurstWrite) else {
        return 0;
    };
    shift_registers_in(rest.pins, part, header, bytes);
    bytes.len()
}

impl OpenSession {
    // Registers in turn from an address on, 0 after 15. Answers how many bytes were moved: the buffer's length, or none.
    // A refused burst moves none, and spends its session all the same.
    pub fn burst_read(
        self,
        part: &mut Rx5c348a,
        address: u32,
        buffer: &mut [u8],
    ) -> (SpentSession, usize)
        ensures value { (result.1, buffer.new, wired result.0.pins (seen part.new)) ≡ burst_read address buffer.old (wired self.pins (seen part.old)) }
        ensures law { BurstIsWhatStands address buffer.old (seen part.old) result.1 buffer.new (seen part.new) }
        ensures driven { seen part.new ≡ all_driven (levels_of_burst_read address (length buffer.old) (seen part.old)) (seen part.old) }
    {
        let OpenSession { mut pins } = self;
        let moved = burst_what_stands(&mut pins, part, address, buffer);
        (SpentSession { pins }, moved)
    }

    // Bytes to registers in turn from an address on, 0 after 15. Answers how many were moved: all, or none.
    pub fn burst_write(
        self,
        part: &mut Rx5c348a,
        address: u32,
        bytes: &[u8],
    ) -> (SpentSession, usize)
        ensures value { (result.1, wired result.0.pins (seen part.new)) ≡ burst_write address bytes.now (wired self.pins (seen part.old)) }
        ensures law { BurstArrives address bytes.now (seen part.old) result.1 (seen part.new) }
        ensures driven { seen part.new ≡ all_driven (levels_of_burst_write address bytes.now (seen part.old)) (seen part.old) }
    {
        let OpenSession { mut pins } = self;
        let moved = burst_to_arrive(&mut pins, part, address, bytes);
        (SpentSession { pins }, moved)
    }
}
