// Whole bytes shifted in and out, highest bit first, by the edges of SCLK.
ghost use Rattle.std.specs.Prelude.{◌≡◌};
ghost use Rattle.serial_transfer.specs.Rules.{risen, fallen};
ghost use Rattle.serial_transfer.specs.Bytes.{byte_in, clocked_out, byte_out};
ghost use Rattle.serial_transfer.specs.Laws.{ComesIn, GoesOut};

use crate::bits::{bit_of, taken_in};
use crate::phase::{Landing, SerialOut};
use crate::transfer::Transfer;

impl Transfer {
    // One bit on SI: SCLK rises, and falls.
    fn clock_in(&mut self, si: u8) -> Option<Landing>
        ensures { (result, self.new.phase) ≡ fallen (risen self.old.phase 0) si }
    {
        self.rise(0);
        self.fall(si)
    }

    // A byte on SI. Answers what has landed.
    pub fn shift_in(&mut self, byte: u8) -> Option<Landing>
        ensures value { (result, self.new.phase) ≡ byte_in byte self.old.phase }
        ensures law { ComesIn byte self.old.phase (result, self.new.phase) }
    {
        let mut landing = None;
        for place in (0..8).rev() {
            landing = self.clock_in(bit_of(byte, place)).or(landing);
        }
        landing
    }

    // One bit from SO: SCLK rises, SO is read, SCLK falls with SI low.
    fn clock_out(&mut self, due_byte: u8) -> SerialOut
        ensures { (result, self.new.phase) ≡ clocked_out due_byte self.old.phase }
    {
        self.rise(due_byte);
        let out = self.out();
        self.fall(0);
        out
    }

    // A byte from SO, `due_byte` being that of the register that is due. None where none is due: nothing is driven then.
    pub fn shift_out(&mut self, due_byte: u8) -> Option<u8>
        ensures value { (result, self.new.phase) ≡ byte_out due_byte self.old.phase }
        ensures law { GoesOut due_byte self.old.phase (result, self.new.phase) }
    {
        self.due()?;
        let mut gathered = 0;
        for _ in 0..8u8 {
            gathered = taken_in(gathered, u8::from(self.clock_out(due_byte)));
        }
        Some(gathered)
    }
}
