// The register file's record.
ghost use Rattle.std.specs.Prelude.{◌≡◌, IsTrue, length, bit_and, slice_index_or};
ghost use Rattle.std.specs.List.{list_all};
ghost use Rattle.rx5c_registers.specs.Alarms.{blank_row, every_day, row_masked};

use crate::alarm::AlarmRow;
use byte_map::map::ByteMap;
use clock_core::clock::ClockCore;

#[derive(Drop)]
pub struct RegisterFile {
    pub core: ClockCore<ByteMap>,
    // Alarm_W, then Alarm_D, whose days are all seven
    pub alarms: [AlarmRow; 2],
    // XSTP: the oscillator has stopped, and the time is not to be trusted
    pub oscillator_stopped: bool,
    // what Eh and Fh only store
    pub stored_control: u8,
    pub stored_flags: u8,
    ghost two_rows: { length alarms ≡ 2 },
    ghost alarm_bits: { IsTrue (list_all row_masked alarms) },
    ghost daily_days: { (slice_index_or alarms 1 (blank_row 0)).days ≡ every_day },
    ghost control_bits: { bit_and stored_control 0x17 ≡ stored_control },
    ghost flag_bits: { bit_and stored_flags 0xAC ≡ stored_flags },
}
