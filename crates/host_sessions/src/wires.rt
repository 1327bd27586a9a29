// The levels that begin and end a session: SI stays low, and the pin record follows each.
// A session keeps no part, which others may drive between its calls: the part is passed at each.
// A pair of both borrows would have to be named again in every contract.
ghost use Rattle.std.specs.Prelude.{◌≡◌};
ghost use Rattle.rx5c348a.specs.Part.{seen};
ghost use Rattle.host_wires.specs.Record.{wired};
ghost use Rattle.host_sessions.specs.Sessions.{at_levels, opening, closing};

use host_wires::record::PinRecord;
use rx5c348a::part::Rx5c348a;

// Drives CE and SCLK, with SI low. At most one of the two changes, so it is never refused.
fn drive(pins: &mut PinRecord, part: &mut Rx5c348a, ce: bool, sclk: bool)
    ensures { wired pins.new (seen part.new) ≡ at_levels (wired pins.old (seen part.old)) ce sclk }
{
    pins.drive(part, PinRecord::of(ce, sclk, false));
}

// SCLK low with CE as it stands, then CE low.
pub(crate) fn drive_closing(pins: &mut PinRecord, part: &mut Rx5c348a)
    ensures { wired pins.new (seen part.new) ≡ closing (wired pins.old (seen part.old)) }
{
    let ce = part.ce;
    drive(pins, part, ce, false);
    drive(pins, part, false, false);
}

// The levels of closing, then CE high.
pub(crate) fn drive_opening(pins: &mut PinRecord, part: &mut Rx5c348a)
    ensures { wired pins.new (seen part.new) ≡ opening (wired pins.old (seen part.old)) }
{
    drive_closing(pins, part);
    drive(pins, part, true, false);
}
