// An open session: its transfers are in `singles` and `bursts`.
ghost use Rattle.std.specs.Prelude.{◌≡◌};
ghost use Rattle.rx5c348a.specs.Part.{seen};
ghost use Rattle.host_wires.specs.Record.{wired};
ghost use Rattle.host_sessions.specs.Sessions.{closed};
ghost use Rattle.host_sessions.specs.Driven.{levels_of_close, all_driven};
ghost use Rattle.host_sessions.specs.Laws.{Closes};

use crate::idle::IdleSession;
use crate::promises::close_to_rest;
use host_wires::record::PinRecord;
use rx5c348a::part::Rx5c348a;

// Single reads and writes, or one burst.
pub struct OpenSession {
    pub(crate) pins: PinRecord,
}

impl OpenSession {
    // Where the next transfer starts.
    pub fn pin_record(&self) -> PinRecord
        ensures { result ≡ self.now.pins }
    {
        self.pins
    }

    // SCLK low, then CE low, with SI low.
    pub fn close(self, part: &mut Rx5c348a) -> IdleSession
        ensures value { wired result.pins (seen part.new)
            ≡ closed (wired self.pins (seen part.old)) }
        ensures law { Closes (seen part.old) (seen part.new) }
        ensures driven { seen part.new
            ≡ all_driven (levels_of_close (seen part.old)) (seen part.old) }
    {
        let OpenSession { mut pins } = self;
        close_to_rest(&mut pins, part);
        IdleSession { pins }
    }
}
