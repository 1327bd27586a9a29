// What a byte written to each register does. A write names register and byte, and a pair of them would say no more.
ghost use Rattle.std.specs.Prelude.{◌≡◌, ◌<◌};
ghost use Rattle.rx5c_registers.specs.File.{file_seen, has, hour_mode_in, cell_written, alarm_written, rows_enabled, row_flags_written, control_written, flags_written, put_in, written};
ghost use Rattle.rx5c_registers.specs.Standing.{StandsIn};

use crate::file::RegisterFile;
use crate::reading::{ALARM_D, ALARM_W, DAFG, DALE, TWENTY_FOUR_HOURS, WAFG, WALE, XSTP};
use register_map::hour_mode::HourMode;
use register_map::map::RegisterMap;

// Which bits each register has.
const USED_BITS: [u8; 16] = [
    0x7F, 0x7F, 0x3F, 0x07, 0x3F, 0x9F, 0xFF, 0x7F, 0x7F, 0x3F, 0x7F, 0x7F, 0x3F, 0x00, 0xF7, 0xBF,
];

// CLEN2 and CT2 to CT0.
pub const STORED_CONTROL: u8 = 0x17;

// VDSL, SCRATCH1, CLEN1 and CTFG.
pub const STORED_FLAGS: u8 = 0xAC;

fn has(byte: u8, mask: u8) -> bool
    ensures { result ≡ has byte mask }
{
    byte & mask != 0
}

impl RegisterFile {
    // Registers 0 to 6. Writing the seconds begins a second.
    fn write_cell(&mut self, cell: u8, byte: u8)
        requires { cell < 7 }
        ensures { file_seen self.new ≡ cell_written (file_seen self.old) cell byte }
    {
        self.core.map.put(cell as usize, byte);
        if cell == 0 {
            self.core.restart_second();
        }
    }

    // Registers 8 to Ch.
    fn write_alarm(&mut self, address: u8, byte: u8)
        ensures { file_seen self.new ≡ alarm_written (file_seen self.old) address byte }
    {
        match address {
            8 => self.alarms[ALARM_W].set_minute(byte),
            9 => self.alarms[ALARM_W].set_hour(byte),
            10 => self.alarms[ALARM_W].set_days(byte),
            11 => self.alarms[ALARM_D].set_minute(byte),
            12 => self.alarms[ALARM_D].set_hour(byte),
            _ => {}
        }
    }

    // WALE and DALE. Row by row: a loop would have to pair rows with bits first.
    pub(crate) fn enable_rows(&mut self, weekly: bool, daily: bool)
        ensures { file_seen self.new ≡ rows_enabled (file_seen self.old) weekly daily }
    {
        self.alarms[ALARM_W].enable(weekly);
        self.alarms[ALARM_D].enable(daily);
    }

    // WAFG and DAFG.
    fn write_row_flags(&mut self, weekly: bool, daily: bool)
        ensures { file_seen self.new ≡ row_flags_written (file_seen self.old) weekly daily }
    {
        self.alarms[ALARM_W].write_flag(weekly);
        self.alarms[ALARM_D].write_flag(daily);
    }

    // Eh: enables, hour mode, and bits that are only stored.
    #[tactic(auto, using(civil_map::proofs::Masking::masked_twice))]
    fn write_control(&mut self, byte: u8)
        ensures { file_seen self.new ≡ control_written (file_seen self.old) byte }
    {
        self.enable_rows(has(byte, WALE), has(byte, DALE));
        self.core
            .set_hour_mode(HourMode::from_bit(has(byte, TWENTY_FOUR_HOURS)));
        self.stored_control = byte & STORED_CONTROL;
    }

    // Fh: flags that 0 clears, and bits that are only stored.
    #[tactic(auto, using(civil_map::proofs::Masking::masked_twice))]
    fn write_flags(&mut self, byte: u8)
        ensures { file_seen self.new ≡ flags_written (file_seen self.old) byte }
    {
        self.write_row_flags(has(byte, WAFG), has(byte, DAFG));
        if !has(byte, XSTP) {
            self.oscillator_stopped = false;
        }
        self.stored_flags = byte & STORED_FLAGS;
    }

    // A byte whose unused bits are cleared.
    fn put_in(&mut self, address: u8, byte: u8)
        ensures { file_seen self.new ≡ put_in (file_seen self.old) address byte }
    {
        match address {
            0..=6 => self.write_cell(address, byte),
            7 => self.core.set_trim(byte),
            8..=13 => self.write_alarm(address, byte),
            14 => self.write_control(byte),
            15 => self.write_flags(byte),
            _ => {}
        }
    }

    // Clears the unused bits first; beyond Fh there is no register. Apart, so that the proof of the law does not open it.
    fn write_register(&mut self, address: u8, byte: u8)
        ensures { file_seen self.new ≡ written (file_seen self.old) address byte }
    {
        if address > 15 {
            return;
        }
        self.put_in(address, byte & USED_BITS[address as usize]);
    }

    // Writes a register.
    pub fn write(&mut self, address: u8, byte: u8)
        ensures value { file_seen self.new ≡ written (file_seen self.old) address byte }
        ensures stands { StandsIn (file_seen self.old) address byte (file_seen self.new) }
    {
        self.write_register(address, byte);
    }
}
