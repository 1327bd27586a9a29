// The register file of a 348A.
ghost use Rattle.std.specs.Prelude.{◌≡◌, IfSome};
ghost use Rattle.std.specs.Option.{option_map};
ghost use Rattle.rx5c_registers.specs.File.{file_seen};
ghost use Rattle.saved_parts.specs.Files.{file_saved, file_restored};

use crate::alarm::SavedAlarm;
use crate::flags::flag_numbered;
use crate::running::SavedCore;
use byte_map::cells::ByteCells;
use rx5c_registers::alarm::EVERY_DAY;
use rx5c_registers::file::RegisterFile;
use rx5c_registers::writing::{STORED_CONTROL, STORED_FLAGS};

#[repr(C)]
#[derive(Clone, Copy, PartialEq, Eq, Debug)]
pub struct SavedFile {
    pub core: SavedCore,
    pub cells: [u8; 7],
    pub weekly: SavedAlarm,
    pub daily: SavedAlarm,
    pub oscillator_stopped: u8,
    pub stored_control: u8,
    pub stored_flags: u8,
}

impl SavedFile {
    pub(crate) fn of(file: &RegisterFile) -> SavedFile
        ensures { result ≡ file_saved (file_seen file.now) }
    {
        let [weekly, daily] = file.alarms;
        SavedFile {
            core: SavedCore::of(&file.core),
            cells: file.core.map.cells.bytes,
            weekly: SavedAlarm::of(weekly),
            daily: SavedAlarm::of(daily),
            oscillator_stopped: u8::from(file.oscillator_stopped),
            stored_control: file.stored_control,
            stored_flags: file.stored_flags,
        }
    }

    pub(crate) fn restore(self) -> Option<RegisterFile>
        ensures value { option_map file_seen result ≡ file_restored self }
        ensures same { IfSome result (λ file. file_saved (file_seen file) ≡ self) }
    {
        let core = self.core.restore(ByteCells::from_bytes(self.cells)?)?;
        let weekly = self.weekly.restore()?;
        let daily = self.daily.restore()?;
        if daily.days != EVERY_DAY
            || self.stored_control & STORED_CONTROL != self.stored_control
            || self.stored_flags & STORED_FLAGS != self.stored_flags
        {
            return None;
        }
        let oscillator_stopped = flag_numbered(self.oscillator_stopped)?;
        Some(RegisterFile {
            core,
            alarms: [weekly, daily],
            oscillator_stopped,
            stored_control: self.stored_control,
            stored_flags: self.stored_flags,
        })
    }
}
