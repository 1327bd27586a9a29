// What a header asks for, and what follows a whole header.
ghost use Rattle.std.specs.Prelude.{◌≡◌, ◌<◌, Some};
ghost use Rattle.serial_transfer.specs.Rules.{code_of, format_coded, data_at, headed};

use crate::bits::low_half;
use crate::data::DataByte;
use crate::phase::{Format, Phase, SerialOut};
use crate::transfer::Transfer;

// A header of which no bit is in yet.
pub(crate) const FRESH_HEADER: Transfer = Transfer {
    phase: Phase::Header {
        bits: 0,
        gathered: 0,
    },
};

// The low four bits of the header that asks for it.
impl From<Format> for u8 {
    ghost from_gives = { λ format code. code ≡ code_of format };

    fn from(format: Format) -> u8 {
        match format {
            Format::SingleWrite => 0x8,
            Format::BurstWrite => 0x0,
            Format::SingleRead => 0xC,
            Format::BurstRead => 0x4,
        }
    }
}

impl Format {
    // By the low four bits of a header. An unknown one is no error: the part is deaf then.
    pub fn coded(code: u8) -> Option<Format>
        ensures { result ≡ format_coded code }
    {
        match code {
            0x8 => Some(Format::SingleWrite),
            0x0 => Some(Format::BurstWrite),
            0xC => Some(Format::SingleRead),
            0x4 => Some(Format::BurstRead),
            _ => None,
        }
    }

    // The data that it begins at an address.
    fn begun_at(self, address: u8) -> Transfer
        requires { address < 16 }
        ensures { result.phase ≡ data_at address (Some self) }
    {
        let burst = matches!(self, Format::BurstWrite | Format::BurstRead);
        let data = DataByte {
            address,
            burst,
            bits: 0,
        };
        match self {
            Format::SingleWrite | Format::BurstWrite => data.written(0),
            Format::SingleRead | Format::BurstRead => data.read(0, SerialOut::Off),
        }
    }
}

// After a whole header: its high four bits are the address, its low four the format.
pub(crate) fn transfer_after_header(header: u8) -> Transfer
    ensures { result.phase ≡ headed header }
{
    match Format::coded(low_half(header)) {
        Some(format) => format.begun_at(header >> 4),
        None => Transfer { phase: Phase::Deaf },
    }
}
