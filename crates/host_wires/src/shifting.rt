// Bits and bytes shifted in and out, a pulse of SCLK for each bit while CE is high.
// The part is passed at each call, since a pin record holds only what a host knows: levels, by value.
// The loops are not those of a transfer, which answers what landed: a host only hears SO.
ghost use Rattle.std.specs.Prelude.{◌≡◌};
ghost use Rattle.rx5c348a.specs.Part.{seen};
ghost use Rattle.host_wires.specs.Record.{wired};
ghost use Rattle.host_wires.specs.Shifting.{driven_to, driven, bit_in, byte_in, bit_out, byte_out};
ghost use Rattle.host_wires.specs.Laws.{Arrives, StandsThere};

use crate::record::PinRecord;
use rx5c348a::part::Rx5c348a;
use serial_transfer::bits::{bit_of, taken_in};
use serial_transfer::phase::SerialOut;

impl PinRecord {
    // Drives these levels. Answers what is heard on SO: nothing where the part refuses.
    pub fn drive(&mut self, part: &mut Rx5c348a, to: PinRecord) -> SerialOut
        ensures { (result, wired self.new (seen part.new)) ≡ driven_to (wired self.old (seen part.old)) to }
    {
        *self = to;
        match part.pins(u64::from(to.levels)) {
            Ok(answer) => answer.so,
            Err(_) => SerialOut::Off,
        }
    }

    // A level of SCLK and SI, with CE high.
    fn drive_clock(&mut self, part: &mut Rx5c348a, sclk: bool, si: bool) -> SerialOut
        ensures { (result, wired self.new (seen part.new)) ≡ driven (wired self.old (seen part.old)) sclk si }
    {
        self.drive(part, PinRecord::of(true, sclk, si))
    }

    // One bit on SI.
    fn clock_in(&mut self, part: &mut Rx5c348a, si: bool)
        ensures { wired self.new (seen part.new) ≡ bit_in (wired self.old (seen part.old)) si }
    {
        self.drive_clock(part, true, si);
        self.drive_clock(part, false, si);
    }

    // A byte on SI, highest bit first.
    pub fn shift_in(&mut self, part: &mut Rx5c348a, byte: u8)
        ensures value { wired self.new (seen part.new) ≡ byte_in byte (wired self.old (seen part.old)) }
        ensures law { Arrives byte (seen part.old) (seen part.new) }
    {
        for place in (0..8).rev() {
            self.clock_in(part, bit_of(byte, place) == 1);
        }
    }

    // One bit from SO, with SI low.
    fn clock_out(&mut self, part: &mut Rx5c348a) -> SerialOut
        ensures { (result, wired self.new (seen part.new)) ≡ bit_out (wired self.old (seen part.old)) }
    {
        let out = self.drive_clock(part, true, false);
        self.drive_clock(part, false, false);
        out
    }

    // A byte from SO, highest bit first.
    pub fn shift_out(&mut self, part: &mut Rx5c348a) -> u8
        ensures value { (result, wired self.new (seen part.new)) ≡ byte_out (wired self.old (seen part.old)) }
        ensures law { StandsThere (wired self.old (seen part.old)) result (seen part.new) }
    {
        let mut gathered = 0;
        for _ in 0..8u8 {
            gathered = taken_in(gathered, u8::from(self.clock_out(part)));
        }
        gathered
    }
}
