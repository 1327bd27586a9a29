// The host's pin record: the levels that it drives.
ghost use Rattle.std.specs.Prelude.{◌≡◌};
ghost use Rattle.host_wires.specs.Record.{pin_record};

use rx5c348a::pins::{CE, SCLK, SI};

// The levels driven last, as the number that a part takes.
#[derive(Clone, Copy, PartialEq, Eq, Debug)]
pub struct PinRecord {
    pub levels: u8,
}

impl PinRecord {
    // The record of these levels.
    pub fn of(ce: bool, sclk: bool, si: bool) -> PinRecord
        ensures { result ≡ pin_record ce sclk si }
    {
        let levels = u64::from(ce) * CE + u64::from(sclk) * SCLK + u64::from(si) * SI;
        PinRecord {
            levels: levels as u8,
        }
    }
}
