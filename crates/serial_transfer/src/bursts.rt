// Bytes shifted in and out one after another.
ghost use Rattle.std.specs.Prelude.{◌≡◌, length};
ghost use Rattle.serial_transfer.specs.Bursts.{shift_bytes_in, register_out, registers_out};
ghost use Rattle.serial_transfer.specs.Laws.{BurstIn, BurstOut, OnlyCeWakes};

use crate::phase::Landing;
use crate::transfer::Transfer;

impl Transfer {
    // Bytes on SI, as many as there is room to note what landed. Answers how many.
    pub fn shift_bytes_in(&mut self, bytes: &[u8], landings: &mut [Option<Landing>]) -> usize
        ensures value { (result, landings.new, self.new.phase) ≡ shift_bytes_in bytes.now self.old.phase landings.old }
        ensures law { BurstIn bytes.now result self.old.phase landings.old landings.new self.new.phase }
    {
        let count = bytes.len().min(landings.len());
        // by number: what was written through a zip of iter_mut is lost to proofs
        for i in 0..count {
            landings[i] = self.shift_in(bytes[i]);
        }
        count
    }

    // A byte from SO, out of the register that is due, if one is.
    fn shift_register_out(&mut self, registers: &[u8; 16]) -> Option<u8>
        ensures { (result, self.new.phase) ≡ register_out registers.now self.old.phase }
    {
        let address = self.due()?;
        self.shift_out(registers[address as usize])
    }

    // Bytes from SO, out of the registers that are due, until the buffer is full.
    pub fn shift_bytes_out(&mut self, registers: &[u8; 16], given: &mut [Option<u8>])
        ensures value { (given.new, self.new.phase) ≡ registers_out registers.now (length given.old) self.old.phase }
        ensures law { BurstOut registers.now (length given.old) self.old.phase given.new self.new.phase }
    {
        for byte in given.iter_mut() {
            *byte = self.shift_register_out(registers);
        }
    }
}

// Names a law, and does nothing: whatever SCLK and SI do, the deaf stay deaf and the idle stay idle until CE moves.
#[tactic(auto, using(crate::proofs::Turns::only_ce_wakes))]
pub fn only_ce_wakes()
    ensures { OnlyCeWakes }
{}
