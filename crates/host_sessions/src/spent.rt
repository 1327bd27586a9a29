// A session after its burst.
ghost use Rattle.std.specs.Prelude.{◌≡◌};
ghost use Rattle.rx5c348a.specs.Part.{seen};
ghost use Rattle.host_wires.specs.Record.{wired};
ghost use Rattle.host_sessions.specs.Sessions.{closed};
ghost use Rattle.host_sessions.specs.Driven.{levels_of_close, all_driven};
ghost use Rattle.host_sessions.specs.Laws.{Closes};

use crate::idle::IdleSession;
use crate::promises::close_to_rest;
use host_wires::record::PinRecord;
use rx5c348a::part::Rx5c348a;

// Only closing is left.
pub struct SpentSession {
    pub(crate) pins: PinRecord,
}

impl SpentSession {
    // The levels as the burst left them.
    pub fn pin_record(&self) -> PinRecord
        ensures { result ≡ self.now.pins }
    {
        self.pins
    }

    // SCLK low, then CE low, with SI low.
    pub fn close(self, part: &mut Rx5c348a) -> IdleSession
        ensures value { wired result.pins (seen part.new)
            ≡ closed (wired self.pins (seen part.old)) }
        ensures law { Closes (seen part.old) (seen part.new) }
        ensures driven { seen part.new
            ≡ all_driven (levels_of_close (seen part.old)) (seen part.old) }
    {
        let SpentSession { mut pins } = self;
        close_to_rest(&mut pins, part);
        IdleSession { pins }
    }
}
