// A session between openings.
ghost use Rattle.std.specs.Prelude.{◌≡◌};
ghost use Rattle.rx5c348a.specs.Part.{seen};
ghost use Rattle.host_wires.specs.Record.{wired};
ghost use Rattle.host_sessions.specs.Sessions.{all_low, opened};
ghost use Rattle.host_sessions.specs.Driven.{levels_of_open, all_driven};
ghost use Rattle.host_sessions.specs.Laws.{Opens};

use crate::open::OpenSession;
use crate::promises::open_to_a_header;
use host_wires::record::PinRecord;
use rx5c348a::part::Rx5c348a;

// No transfer can be made: open first. A session is moved from call to call, so what its state does not take does not build.
pub struct IdleSession {
    pub(crate) pins: PinRecord,
}

impl IdleSession {
    // A host that drives nothing yet.
    pub fn new() -> IdleSession
        ensures { result.pins ≡ all_low }
    {
        IdleSession {
            pins: PinRecord { levels: 0 },
        }
    }

    // SCLK low, CE low, CE high, with SI low: the part then awaits a header, whatever it was doing.
    pub fn open(self, part: &mut Rx5c348a) -> OpenSession
        ensures value { wired result.pins (seen part.new)
            ≡ opened (wired self.pins (seen part.old)) }
        ensures law { Opens (seen part.old) (seen part.new) }
        ensures driven { seen part.new
            ≡ all_driven (levels_of_open (seen part.old)) (seen part.old) }
    {
        let IdleSession { mut pins } = self;
        open_to_a_header(&mut pins, part);
        OpenSession { pins }
    }

    // The host is done. Answers the levels that it leaves on the wires.
    pub fn end(self) -> PinRecord
        ensures { result ≡ self.pins }
    {
        let IdleSession { pins } = self;
        pins
    }
}
