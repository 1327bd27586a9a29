// What the sixteen registers read.
ghost use Rattle.std.specs.Prelude.{◌≡◌, ◌-◌, ◌<◌, ◌≤◌, bit_or, slice_index, slice_index_or};
ghost use Rattle.rx5c_registers.specs.Alarms.{blank_row};
ghost use Rattle.rx5c_registers.specs.File.{file_seen, registers, upper_registers, control_byte, flag_byte, bit_if, interrupts, look_at};

use crate::alarm::AlarmRow;
use crate::file::RegisterFile;
use clock_core::cells::copy_front;
use refusals::Refusal;
use register_map::map::RegisterMap;
use std::array;

// Rows by number: they are walked as well as named.
pub(crate) const ALARM_W: usize = 0;

pub(crate) const ALARM_D: usize = 1;

// Bits of Eh by their names on the chip.
pub(crate) const WALE: u8 = 0x80;

pub(crate) const DALE: u8 = 0x40;

pub(crate) const TWENTY_FOUR_HOURS: u8 = 0x20;

// Bits of Fh.
pub(crate) const XSTP: u8 = 0x10;

pub(crate) const WAFG: u8 = 0x02;

pub(crate) const DAFG: u8 = 0x01;

// WAFG and DAFG.
fn row_flags(rows: [AlarmRow; 2]) -> u8
    ensures { let weekly = slice_index_or rows 0 (blank_row 0) in
        let daily = slice_index_or rows 1 (blank_row 0) in
        result ≡ bit_or (bit_if weekly.flag 0x02) (bit_if daily.flag 0x01) }
{
    let [weekly, daily] = rows;
    u8::from(weekly.flag) * WAFG | u8::from(daily.flag) * DAFG
}

impl RegisterFile {
    // Register Eh.
    fn control(&self) -> u8
        ensures { result ≡ control_byte (file_seen self.now) }
    {
        let [weekly, daily] = self.alarms;
        let enables = u8::from(weekly.enabled) * WALE | u8::from(daily.enabled) * DALE;
        enables | (self.core.map.hour_mode().bit(TWENTY_FOUR_HOURS) | self.stored_control)
    }

    // Register Fh.
    fn flags(&self) -> u8
        ensures { result ≡ flag_byte (file_seen self.now) }
    {
        row_flags(self.alarms) | (u8::from(self.oscillator_stopped) * XSTP | self.stored_flags)
    }

    // Registers 7 to Fh.
    fn upper_register(&self, address: u8) -> u8
        requires { 7 ≤ address }
        ensures { result ≡ slice_index (upper_registers (file_seen self.now)) (address - 7) }
    {
        match address {
            7 => self.core.trim,
            8 => self.alarms[ALARM_W].minute,
            9 => self.alarms[ALARM_W].hour,
            10 => self.alarms[ALARM_W].days,
            11 => self.alarms[ALARM_D].minute,
            12 => self.alarms[ALARM_D].hour,
            13 => 0,
            14 => self.control(),
            15 => self.flags(),
            _ => 0,
        }
    }

    // One register; beyond Fh there is none, which reads 0.
    pub fn read(&self, address: u8) -> u8
        ensures { result ≡ slice_index (registers (file_seen self.now)) address }
    {
        if address < 7 {
            self.core.map.read(address as usize)
        } else {
            self.upper_register(address)
        }
    }

    // An alarm's flag is up: /INTR is pulled low.
    pub fn interrupts(&self) -> bool
        ensures { result ≡ interrupts (file_seen self.now) }
    {
        self.alarms.iter().any(|row| row.flag)
    }

    /// Registers 0 to Fh.
    pub fn registers(&self) -> [u8; 16]
        ensures { result ≡ registers (file_seen self.now) }
    {
        array::from_fn(
            |address| -> u8
                requires { address < 16 }
                ensures { result ≡ slice_index (registers (file_seen self.entry.now)) address }
            { self.read(address as u8) },
        )
    }

    /// Puts registers 0 to Fh first in a buffer.
    pub fn look(&self, buffer: &mut [u8]) -> Result<(), Refusal>
        ensures { (result, buffer.new) ≡ look_at (file_seen self.now) buffer.old }
    {
        copy_front(&self.registers(), buffer)
    }
}
