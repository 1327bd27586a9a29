// An alarm row.
ghost use Rattle.std.specs.Prelude.{◌≡◌, IsTrue, IfSome};
ghost use Rattle.rx5c_registers.specs.Alarms.{row_masked};
ghost use Rattle.saved_parts.specs.Alarms.{alarm_saved, alarm_restored};

use crate::flags::flag_numbered;
use rx5c_registers::alarm::AlarmRow;

#[repr(C)]
#[derive(Clone, Copy, PartialEq, Eq, Debug)]
pub struct SavedAlarm {
    pub minute: u8,
    pub hour: u8,
    pub days: u8,
    pub enabled: u8,
    pub flag: u8,
}

impl SavedAlarm {
    pub(crate) fn of(row: AlarmRow) -> SavedAlarm
        ensures { result ≡ alarm_saved row }
    {
        SavedAlarm {
            minute: row.minute,
            hour: row.hour,
            days: row.days,
            enabled: u8::from(row.enabled),
            flag: u8::from(row.flag),
        }
    }

    pub(crate) fn restore(self) -> Option<AlarmRow>
        ensures value { result ≡ alarm_restored self }
        ensures masked { IfSome result (λ row. IsTrue (row_masked row)) }
        ensures same { IfSome result (λ row. alarm_saved row ≡ self) }
    {
        if self.minute >= 128 || self.hour >= 64 || self.days >= 128 {
            return None;
        }
        let enabled = flag_numbered(self.enabled)?;
        let flag = flag_numbered(self.flag)?;
        Some(AlarmRow {
            minute: self.minute,
            hour: self.hour,
            days: self.days,
            enabled,
            flag,
        })
    }
}
