// What a host can rely on, call by call: the laws stand above what each call drives.
// They stand apart from the calls, so that no other proof opens what a call does.
ghost use Rattle.std.specs.Prelude.{◌≡◌, length};
ghost use Rattle.rx5c348a.specs.Part.{seen};
ghost use Rattle.host_wires.specs.Record.{wired};
ghost use Rattle.host_sessions.specs.Sessions.{opened, closed, single_read, single_write, burst_read, burst_write};
ghost use Rattle.host_sessions.specs.Driven.{levels_of_open, levels_of_close, levels_of_read, levels_of_write, levels_of_burst_read, levels_of_burst_write, all_driven};
ghost use Rattle.host_sessions.specs.Laws.{Opens, Closes, ReadIsWhatStands, WrittenArrives, BurstIsWhatStands, BurstArrives};

use crate::bursts::{read_burst, write_burst};
use crate::singles::{read_single, write_single};
use crate::wires::{drive_closing, drive_opening};
use host_wires::record::PinRecord;
use refusals::Refusal;
use rx5c348a::part::Rx5c348a;

// Whatever the part was doing, it awaits a header.
pub(crate) fn open_to_a_header(pins: &mut PinRecord, part: &mut Rx5c348a)
    ensures value { wired pins.new (seen part.new) ≡ opened (wired pins.old (seen part.old)) }
    ensures law { Opens (seen part.old) (seen part.new) }
    ensures driven { seen part.new ≡ all_driven (levels_of_open (seen part.old)) (seen part.old) }
{
    drive_opening(pins, part);
}

// The part is let go, its pins low.
pub(crate) fn close_to_rest(pins: &mut PinRecord, part: &mut Rx5c348a)
    ensures value { wired pins.new (seen part.new) ≡ closed (wired pins.old (seen part.old)) }
    ensures law { Closes (seen part.old) (seen part.new) }
    ensures driven { seen part.new ≡ all_driven (levels_of_close (seen part.old)) (seen part.old) }
{
    drive_closing(pins, part);
}

// The byte is the one that stands in the register, and nothing changes.
pub(crate) fn read_what_stands(
    pins: &mut PinRecord,
    part: &mut Rx5c348a,
    address: u32,
) -> Result<u8, Refusal>
    ensures value { (result, wired pins.new (seen part.new)) ≡ single_read address (wired pins.old (seen part.old)) }
    ensures law { ReadIsWhatStands address (seen part.old) result (seen part.new) }
    ensures driven { seen part.new ≡ all_driven (levels_of_read address (seen part.old)) (seen part.old) }
{
    read_single(pins, part, address)
}

// The byte is written by its register's rule, and a header is awaited again.
pub(crate) fn write_to_arrive(
    pins: &mut PinRecord,
    part: &mut Rx5c348a,
    address: u32,
    byte: u8,
) -> Result<(), Refusal>
    ensures value { (result, wired pins.new (seen part.new)) ≡ single_write address byte (wired pins.old (seen part.old)) }
    ensures law { WrittenArrives address byte (seen part.old) result (seen part.new) }
    ensures driven { seen part.new ≡ all_driven (levels_of_write address byte (seen part.old)) (seen part.old) }
{
    write_single(pins, part, address, byte)
}

// The bytes moved are the registers in turn, round sixteen.
pub(crate) fn burst_what_stands(
    pins: &mut PinRecord,
    part: &mut Rx5c348a,
    address: u32,
    buffer: &mut [u8],
) -> usize
    ensures value { (result, buffer.new, wired pins.new (seen part.new)) ≡ burst_read address buffer.old (wired pins.old (seen part.old)) }
    ensures law { BurstIsWhatStands address buffer.old (seen part.old) result buffer.new (seen part.new) }
    ensures driven { seen part.new ≡ all_driven (levels_of_burst_read address (length buffer.old) (seen part.old)) (seen part.old) }
{
    read_burst(pins, part, address, buffer)
}

// The bytes moved have landed in turn, round sixteen.
pub(crate) fn burst_to_arrive(
    pins: &mut PinRecord,
    part: &mut Rx5c348a,
    address: u32,
    bytes: &[u8],
) -> usize
    ensures value { (result, wired pins.new (seen part.new)) ≡ burst_write address bytes.now (wired pins.old (seen part.old)) }
    ensures law { BurstArrives address bytes.now (seen part.old) result (seen part.new) }
    ensures driven { seen part.new ≡ all_driven (levels_of_burst_write address bytes.now (seen part.old)) (seen part.old) }
{
    write_burst(pins, part, address, bytes)
}
