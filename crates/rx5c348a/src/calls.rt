// Power-on, load, halt and pulses, and the registers that a look copies.
ghost use Rattle.std.specs.Prelude.{◌≡◌};
ghost use Rattle.rx5c_registers.specs.File.{registers};
ghost use Rattle.rx5c348a.specs.Part.{seen, power_on, load_part, halt_part, pulse_part, look_part};

use crate::part::Rx5c348a;
use clock_core::setting::Setting;
use refusals::Refusal;
use rx5c_registers::file::RegisterFile;
use serial_transfer::transfer::Transfer;

impl Rx5c348a {
    // As the supply comes up: all registers zero but XSTP, nothing shown, the pins low.
    pub fn power_on() -> Rx5c348a
        ensures { seen result ≡ power_on }
    {
        Rx5c348a {
            registers: RegisterFile::power_on(),
            ce: false,
            sclk: false,
            transfer: Transfer::idle(),
        }
    }

    // Shows a moment and weekday; the rest of the registers is zero, the pins are low, and no transfer is under way.
    #[tactic(auto, unfolding(crate::specs::Part::load_part))]
    pub fn load(&mut self, to: Setting) -> Result<(), Refusal>
        ensures { (result, seen self.new) ≡ load_part (seen self.old) to.moment to.weekday to.trim to.mode }
    {
        self.registers.load(to)?;
        self.ce = false;
        self.sclk = false;
        self.transfer.end();
        Ok(())
    }

    // The oscillator stops. With CE high nothing happens.
    #[tactic(auto, unfolding(crate::specs::Part::halt_part))]
    pub fn halt(&mut self)
        ensures { seen self.new ≡ halt_part (seen self.old) }
    {
        if !self.ce {
            self.registers.halt();
        }
    }

    #[tactic(auto, using(rx5c_registers::proofs::Effects::given_held), unfolding(crate::specs::Part::pulse_part))]
    pub fn pulses(&mut self, count: u64) -> Result<(), Refusal>
        ensures { (result, seen self.new) ≡ pulse_part (seen self.old) count }
    {
        self.registers.pulses(count)
    }

    /// Registers 0 to Fh.
    pub fn registers(&self) -> [u8; 16]
        ensures { result ≡ registers (seen self.now).file }
    {
        self.registers.registers()
    }

    /// Puts registers 0 to Fh first in a buffer.
    pub fn look(&self, buffer: &mut [u8]) -> Result<(), Refusal>
        ensures { (result, buffer.new) ≡ look_part (seen self.now) buffer.old }
    {
        self.registers.look(buffer)
    }
}
