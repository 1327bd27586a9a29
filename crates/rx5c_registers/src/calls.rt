// Power-on, load and halt.
ghost use Rattle.std.specs.Prelude.{◌≡◌};
ghost use Rattle.rx5c_registers.specs.Alarms.{blank_row};
ghost use Rattle.rx5c_registers.specs.File.{file_seen};
ghost use Rattle.rx5c_registers.specs.Clock.{power_on, load, halted};

use crate::alarm::{AlarmRow, EVERY_DAY};
use crate::file::RegisterFile;
use byte_map::map::ByteMap;
use clock_core::clock::ClockCore;
use clock_core::setting::Setting;
use refusals::Refusal;
use register_map::hour_mode::HourMode;
use register_map::map::RegisterMap;

// A row that is set for nothing.
const fn blank_row(days: u8) -> AlarmRow
    ensures { result ≡ blank_row days }
{
    AlarmRow {
        minute: 0,
        hour: 0,
        days,
        enabled: false,
        flag: false,
    }
}

impl RegisterFile {
    // As the supply comes up: all registers zero but XSTP, nothing shown.
    pub fn power_on() -> RegisterFile
        ensures { file_seen result ≡ power_on }
    {
        RegisterFile {
            core: ClockCore::idle(ByteMap::fresh()),
            alarms: [blank_row(0), blank_row(EVERY_DAY)],
            oscillator_stopped: true,
            stored_control: 0,
            stored_flags: 0,
        }
    }

    // Shows a moment and weekday; the rest of the registers is zero.
    pub fn load(&mut self, to: Setting) -> Result<(), Refusal>
        ensures { (result, file_seen self.new) ≡ load (file_seen self.old) to.moment to.weekday to.trim to.mode }
    {
        self.core.load(to)?;
        self.alarms = [blank_row(0), blank_row(EVERY_DAY)];
        self.oscillator_stopped = false;
        self.stored_control = 0;
        self.stored_flags = 0;
        Ok(())
    }

    // The oscillator stops: XSTP is set, and trim, control and the other flags are zero.
    pub fn halt(&mut self)
        ensures { file_seen self.new ≡ halted (file_seen self.old) }
    {
        self.core.set_hour_mode(HourMode::Twelve);
        self.core.set_trim(0);
        self.enable_rows(false, false);
        self.oscillator_stopped = true;
        self.stored_control = 0;
        self.stored_flags = 0;
    }
}
