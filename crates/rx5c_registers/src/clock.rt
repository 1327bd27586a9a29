// How time passes: pulses, hold and release, and the alarms that ring.
ghost use Rattle.std.specs.Prelude.{◌≡◌, true, map, OnOk};
ghost use Rattle.rx5c_registers.specs.Alarms.{rung};
ghost use Rattle.rx5c_registers.specs.File.{file_seen};
ghost use Rattle.rx5c_registers.specs.Clock.{after_advance, crossed, run_to_boundary, pulses_taken, give_pulses, held, released, minute_begun};
ghost use Rattle.rx5c_registers.specs.Ringing.{AlarmsRing, AlarmsRingAtRelease};

use crate::alarm::AlarmRow;
use crate::file::RegisterFile;
use clock_core::boundary::MOST_PULSES;
use refusals::Refusal;
use register_map::map::RegisterMap;

// Each row looks at the minute, hour and weekday.
fn ring_rows(rows: &mut [AlarmRow; 2], minute: u8, hour: u8, weekday: u8)
    ensures { rows.new ≡ map (rung minute hour weekday) rows.old }
{
    for row in rows {
        row.ring(minute, hour, weekday);
    }
}

impl RegisterFile {
    // The cells show a minute that has just begun.
    fn begin_minute(&mut self)
        ensures { file_seen self.new ≡ minute_begun (file_seen self.old) }
    {
        let [_, minute, hour, weekday, ..] = self.core.map.cells.bytes;
        ring_rows(&mut self.alarms, minute, hour, weekday);
    }

    // After an advance. A map that shows none has no seconds, and rings nothing.
    fn after_advance(&mut self)
        ensures { file_seen self.new ≡ after_advance (file_seen self.old) }
    {
        if let Some(0) = self.core.map.seconds_value() {
            self.begin_minute();
        }
    }

    // Takes pulses up to the next boundary, at most so many; answers how many are left.
    fn run_to_boundary(&mut self, count: u32) -> u32
        ensures { (result, file_seen self.new) ≡ run_to_boundary (file_seen self.old) count }
    {
        let crosses = count >= self.core.pulses_to_boundary();
        let left = self.core.run_to_boundary(count);
        if crosses && !self.core.is_held() {
            self.after_advance();
        }
        left
    }

    // Takes pulses, one boundary after the other. The core's loop again: to share it, a trait of five members would stand for three lines.
    fn take_pulses(&mut self, count: u32)
        ensures value { file_seen self.new ≡ pulses_taken count (file_seen self.old) }
        ensures alarms { AlarmsRing count (file_seen self.old) (file_seen self.new) }
    {
        let mut left = count;
        while left > 0 {
            left = self.run_to_boundary(left);
        }
    }

    pub fn pulses(&mut self, count: u64) -> Result<(), Refusal>
        ensures value { (result, file_seen self.new) ≡ give_pulses (file_seen self.old) count }
        ensures alarms { OnOk result (AlarmsRing count (file_seen self.old) (file_seen self.new)) }
    {
        if count > MOST_PULSES {
            return Err(Refusal::TooManyPulses);
        }
        self.take_pulses(count as u32);
        Ok(())
    }

    // Holds the calendar; where it is held already nothing changes.
    pub fn hold(&mut self)
        ensures { file_seen self.new ≡ held (file_seen self.old) }
    {
        let _ = self.core.hold();
    }

    // A waiting boundary is applied, and may ring. Apart, so that the proof of the law does not open it.
    fn let_go(&mut self)
        ensures { file_seen self.new ≡ released (file_seen self.old) }
    {
        let waits = self.core.boundary_waits();
        let _ = self.core.release();
        if waits {
            self.after_advance();
        }
    }

    // Lets the calendar go; where it is released already nothing changes.
    pub fn release(&mut self)
        ensures value { file_seen self.new ≡ released (file_seen self.old) }
        ensures alarms { (file_seen self.old).core.held ≡ true → AlarmsRingAtRelease (file_seen self.old) (file_seen self.new) }
    {
        self.let_go();
    }
}
