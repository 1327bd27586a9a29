// The guard of a transfer.
ghost use Rattle.std.specs.Prelude.{◌≡◌};
ghost use Rattle.host_sessions.specs.Sessions.{rested};

use host_wires::record::PinRecord;
use rx5c348a::pins::CE;

// Lowers SCLK and SI in the pin record as it ends, on whatever way out.
pub(crate) struct Rest<'a> {
    pub(crate) pins: &'a mut PinRecord,
}

impl Drop for Rest<'_> {
    fn drop(self)
        ensures { self.exit.0.now ≡ rested self.entry.pins.now }
    {
        self.pins.levels &= CE as u8;
        let Rest { pins: _ } = self;
    }
}
