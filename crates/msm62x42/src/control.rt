// Registers Dh to Fh: HOLD and BUSY, nothing, and the hour mode.
ghost use Rattle.std.specs.Prelude.{◌≡◌, ◌-◌, ◌≤◌, slice_index};
ghost use Rattle.clock_core.specs.Core.{hold_core, release_core};
ghost use Rattle.digit_map.specs.Cells.{digit_chart};
ghost use Rattle.msm62x42.specs.Part.{seen, control_registers, control_written};

use crate::part::Msm62x42;
use register_map::hour_mode::HourMode;
use register_map::map::RegisterMap;

pub(crate) const HOLD_REGISTER: usize = 13;

const MODE_REGISTER: usize = 15;

// Bits by their names on the chip.
const HOLD: u8 = 1;

const BUSY: u8 = 2;

const TWENTY_FOUR_HOURS: u8 = 4;

impl Msm62x42 {
    // Held already, nothing changes.
    pub(crate) fn raise_hold(&mut self)
        ensures { seen self.new ≡ (hold_core (seen self.old)).1 }
    {
        let _ = self.core.hold();
    }

    // Released already, nothing changes.
    pub(crate) fn lower_hold(&mut self)
        ensures { seen self.new ≡ (release_core digit_chart (seen self.old)).1 }
    {
        let _ = self.core.release();
    }

    // Reads Dh, Eh or Fh.
    pub(crate) fn control(&self, address: usize) -> u8
        requires { 13 ≤ address }
        ensures { result ≡ slice_index (control_registers (seen self.now)) (address - 13) }
    {
        match address {
            HOLD_REGISTER => { if self.core.is_held() { HOLD } else { BUSY } }
            MODE_REGISTER => self.core.map.hour_mode().bit(TWENTY_FOUR_HOURS),
            _ => 0,
        }
    }

    // Writes Dh, Eh or Fh.
    pub(crate) fn write_control(&mut self, address: usize, data: u8)
        ensures { seen self.new ≡ control_written (seen self.old) address «data» }
    {
        match address {
            HOLD_REGISTER => {
                if data % 2 == HOLD {
                    self.raise_hold();
                } else {
                    self.lower_hold();
                }
            }
            MODE_REGISTER => {
                self.core
                    .set_hour_mode(HourMode::from_bit(data / TWENTY_FOUR_HOURS % 2 == 1));
            }
            _ => {}
        }
    }
}
