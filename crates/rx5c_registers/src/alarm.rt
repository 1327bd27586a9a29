// An alarm: one row of the part's table.
ghost use Rattle.std.specs.Prelude.{◌≡◌, true, false};
ghost use Rattle.rx5c_registers.specs.Alarms.{on_day, rung, enabled_to, flag_written, with_minute, with_hour, with_days};

#[derive(Clone, Copy)]
pub struct AlarmRow {
    pub minute: u8,
    pub hour: u8,
    // bit 0 for weekday 0, up to bit 6
    pub days: u8,
    // WALE or DALE, and WAFG or DAFG: bits of two registers, each read and written by itself
    pub enabled: bool,
    pub flag: bool,
}

// All seven days of the week.
pub const EVERY_DAY: u8 = 0x7F;

// A weekday's bit in a row's days.
fn on_day(days: u8, weekday: u8) -> bool
    ensures { result ≡ on_day days weekday }
{
    weekday < 8 && (days >> weekday) & 1 == 1
}

impl AlarmRow {
    // A minute begins, at this minute, hour and weekday.
    pub fn ring(&mut self, minute: u8, hour: u8, weekday: u8)
        ensures { self.new ≡ rung minute hour weekday self.old }
    {
        if self.enabled
            && self.minute == minute
            && self.hour == hour
            && on_day(self.days, weekday)
        {
            self.flag = true;
        }
    }

    // A row that is turned off has no flag up.
    pub fn enable(&mut self, to: bool)
        ensures { self.new ≡ enabled_to to self.old }
    {
        self.enabled = to;
        if !to {
            self.flag = false;
        }
    }

    // Writing 0 to a flag clears it; writing 1 leaves it.
    pub fn write_flag(&mut self, bit: bool)
        ensures { self.new ≡ flag_written bit self.old }
    {
        if !bit {
            self.flag = false;
        }
    }

    // Bits above a register's highest are cleared.
    pub fn set_minute(&mut self, byte: u8)
        ensures { self.new ≡ with_minute byte self.old }
    {
        self.minute = byte % 128;
    }

    pub fn set_hour(&mut self, byte: u8)
        ensures { self.new ≡ with_hour byte self.old }
    {
        self.hour = byte % 64;
    }

    pub fn set_days(&mut self, byte: u8)
        ensures { self.new ≡ with_days byte self.old }
    {
        self.days = byte % 128;
    }
}
