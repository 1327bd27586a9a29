// The header that begins a transfer.
ghost use Rattle.std.specs.Prelude.{◌≡◌, ◌<◌};
ghost use Rattle.rx5c348a.specs.Part.{seen};
ghost use Rattle.serial_transfer.specs.Rules.{code_of};
ghost use Rattle.host_sessions.specs.Sessions.{header_for};

use refusals::Refusal;
use rx5c348a::part::Rx5c348a;
use serial_transfer::phase::Format;

const LAST_ADDRESS: u32 = 15;

// Refuses an address over 15, then a part that awaits no header.
pub(crate) fn header_for(part: &Rx5c348a, address: u32, format: Format) -> Result<u8, Refusal>
    ensures { result ≡ header_for (seen part.now) address (code_of format) }
{
    if address > LAST_ADDRESS {
        return Err(Refusal::NoSuchCell);
    }
    if !part.awaits_header() {
        return Err(Refusal::NoHeaderAwaited);
    }
    Ok(16 * address as u8 + u8::from(format))
}
