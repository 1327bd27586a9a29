// The calls of the part.
ghost use Rattle.std.specs.Prelude.{◌≡◌, slice_index};
ghost use Rattle.msm62x42.specs.Part.{seen, power_on, load_part, pulse_part, read_part, write_part, deselected, registers, look_part};

use crate::control::HOLD_REGISTER;
use crate::part::Msm62x42;
use clock_core::cells::copy_front;
use clock_core::clock::ClockCore;
use clock_core::setting::Setting;
use digit_map::map::DigitMap;
use refusals::Refusal;
use register_map::map::RegisterMap;
use std::array;

impl Msm62x42 {
    // As the supply comes up: all registers zero but BUSY, nothing shown, 12-hour mode.
    pub fn power_on() -> Msm62x42
        ensures { seen result ≡ power_on }
    {
        Msm62x42 {
            core: ClockCore::idle(DigitMap::fresh()),
        }
    }

    // Shows a moment and weekday in an hour mode, released, at the beginning of a second. Not by a Setting: this part has no trim.
    pub fn load(&mut self, moment: u64, weekday: u32, mode: u32) -> Result<(), Refusal>
        ensures { (result, seen self.new) ≡ load_part (seen self.old) moment weekday mode }
    {
        self.core.load(Setting {
            moment,
            weekday,
            trim: 0,
            mode,
        })
    }

    pub fn pulses(&mut self, count: u64) -> Result<(), Refusal>
        ensures { (result, seen self.new) ≡ pulse_part (seen self.old) count }
    {
        self.core.pulses(count)
    }

    pub fn read(&self, address: u32) -> Result<u8, Refusal>
        ensures { result ≡ read_part (seen self.now) address }
    {
        if address > 15 {
            return Err(Refusal::NoSuchCell);
        }
        Ok(self.register(address as usize))
    }

    // Register 0 to Fh.
    fn register(&self, address: usize) -> u8
        ensures { result ≡ slice_index (registers (seen self.now)) address }
    {
        if address < HOLD_REGISTER {
            self.core.map.read(address)
        } else {
            self.control(address)
        }
    }

    pub fn write(&mut self, address: u32, data: u32) -> Result<(), Refusal>
        ensures { (result, seen self.new) ≡ write_part (seen self.old) address «data» }
    {
        if address > 15 || data > 15 {
            return Err(Refusal::NoSuchCell);
        }
        let address = address as usize;
        if address < HOLD_REGISTER {
            self.core.map.put(address, data as u8);
        } else {
            self.write_control(address, data as u8);
        }
        Ok(())
    }

    // The host lets the part go: HOLD falls.
    pub fn deselect(&mut self)
        ensures { seen self.new ≡ deselected (seen self.old) }
    {
        self.lower_hold();
    }

    /// Registers 0 to Fh.
    pub fn registers(&self) -> [u8; 16]
        ensures { result ≡ registers (seen self.now) }
    {
        array::from_fn(
            |address| -> u8
                ensures { result ≡ slice_index (registers (seen self.entry.now)) address }
            { self.register(address) },
        )
    }

    /// Puts registers 0 to Fh first in a buffer.
    pub fn look(&self, buffer: &mut [u8]) -> Result<(), Refusal>
        ensures { (result, buffer.new) ≡ look_part (seen self.now) buffer.old }
    {
        copy_front(&self.registers(), buffer)
    }
}
