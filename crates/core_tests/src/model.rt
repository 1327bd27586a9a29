// The core written again for comparison, one pulse at a time, with a calendar of whole minutes and a seconds cell.
use clock_core::clock::Hold;
use refusals::Refusal;
use register_map::shown::Shown;
use timekeeping::call::CoreCall;

#[derive(Clone, Copy)]
pub(crate) struct Model {
    // whole minutes of the moment
    pub(crate) minute: u64,
    pub(crate) weekday: u8,
    // the seconds cell, which may be no code
    pub(crate) seconds: u8,
    pub(crate) trim: u8,
    pub(crate) position: i64,
    pub(crate) length: i64,
    pub(crate) hold: Hold,
}

// Two decimal digits.
fn packed(value: u8) -> u8 {
    (value % 100 / 10) * 16 + value % 10
}

// The trim in pulses.
fn trim_pulses(trim: u8) -> i64 {
    let byte = i64::from(trim % 128);
    let signed = if byte < 64 { byte } else { byte - 128 };
    match signed {
        2..=63 => 2 * (signed - 1),
        -62..=-1 => 2 * signed,
        _ => 0,
    }
}

impl Model {
    pub(crate) fn new(moment: u64, weekday: u8, trim: u8) -> Model {
        let mut model = Model {
            minute: moment / 60,
            weekday,
            seconds: packed((moment % 60) as u8),
            trim,
            position: 0,
            length: 0,
            hold: Hold::Released,
        };
        model.begin();
        model
    }

    // The seconds value that the cell spells.
    fn value(&self) -> Option<u8> {
        let tens = self.seconds / 16;
        let units = self.seconds % 16;
        if tens < 6 && units < 10 {
            Some(10 * tens + units)
        } else {
            None
        }
    }

    pub(crate) fn shown(&self) -> Option<Shown> {
        let value = self.value()?;
        let moment = self.minute.checked_mul(60)?.checked_add(u64::from(value))?;
        Some(Shown {
            moment,
            weekday: self.weekday,
        })
    }

    fn begin(&mut self) {
        self.position = 0;
        self.length = 32_768;
        if let Some(value) = self.value() {
            let counted = match self.hold {
                Hold::Held {
                    boundary_waits: true,
                } => value.wrapping_add(1),
                _ => value,
            };
            if counted % 20 == 0 {
                self.length = trim_pulses(self.trim).wrapping_add(32_768);
            }
        }
    }

    fn next_minute(&mut self) {
        self.minute = self.minute.wrapping_add(1) % 105_192_000;
        if self.minute % 1_440 == 0 {
            self.weekday = self.weekday.wrapping_add(1) % 7;
        }
    }

    fn advance(&mut self) {
        let Some(value) = self.value() else {
            return;
        };
        self.seconds = packed(value.wrapping_add(1) % 60);
        if value == 59 {
            self.next_minute();
        }
    }

    fn pulse(&mut self) {
        self.position = self.position.wrapping_add(1);
        if self.position < self.length {
            return;
        }
        match self.hold {
            Hold::Held { .. } => {
                self.hold = Hold::Held {
                    boundary_waits: true,
                };
            }
            Hold::Released => self.advance(),
        }
        self.begin();
    }

    fn pulses(&mut self, count: u64) -> Result<(), Refusal> {
        if count > 1_048_576 {
            return Err(Refusal::TooManyPulses);
        }
        for _ in 0..count {
            self.pulse();
        }
        Ok(())
    }

    fn hold(&mut self) -> Result<(), Refusal> {
        if self.hold != Hold::Released {
            return Err(Refusal::AlreadyHeld);
        }
        self.hold = Hold::Held {
            boundary_waits: false,
        };
        Ok(())
    }

    fn release(&mut self) -> Result<(), Refusal> {
        let Hold::Held { boundary_waits } = self.hold else {
            return Err(Refusal::NotHeld);
        };
        if boundary_waits {
            self.advance();
        }
        self.hold = Hold::Released;
        Ok(())
    }

    fn restart(&mut self) {
        if let Hold::Held { .. } = self.hold {
            self.hold = Hold::Held {
                boundary_waits: false,
            };
        }
        self.begin();
    }

    // Does a call. Of the calendar only the seconds cell is written.
    pub(crate) fn call(&mut self, call: CoreCall) -> Result<(), Refusal> {
        match call {
            CoreCall::Pulses(count) => return self.pulses(count),
            CoreCall::Hold => return self.hold(),
            CoreCall::Release => return self.release(),
            CoreCall::Read(cell) if cell > 6 => return Err(Refusal::NoSuchCell),
            CoreCall::Write(cell, _) if cell > 6 => return Err(Refusal::NoSuchCell),
            CoreCall::Look(room) if room < 16 => return Err(Refusal::ShortBuffer),
            CoreCall::Write(_, byte) => self.seconds = byte % 128,
            CoreCall::SetTrim(byte) => self.trim = byte % 128,
            CoreCall::RestartSecond => self.restart(),
            CoreCall::Read(_) | CoreCall::Look(_) | CoreCall::SetHourMode(_) => {}
        }
        Ok(())
    }
}
