// A 348A in a record.
ghost use Rattle.std.specs.Prelude.{◌≡◌, Some, IfSome};
ghost use Rattle.std.specs.Option.{option_map};
ghost use Rattle.rx5c348a.specs.Part.{seen};
ghost use Rattle.saved_parts.specs.Part348.{saved, restored};

use crate::file::SavedFile;
use crate::flags::flag_numbered;
use crate::transfer::SavedTransfer;
use rx5c348a::part::Rx5c348a;

// "348A": zeros are no record of a part, and neither is the record of another part.
const MARK: u32 = 0x3334_3841;

#[repr(C)]
#[derive(Clone, Copy, PartialEq, Eq, Debug)]
pub struct Saved348 {
    pub mark: u32,
    pub registers: SavedFile,
    pub ce: u8,
    pub sclk: u8,
    pub transfer: SavedTransfer,
}

impl Saved348 {
    // A record from which the part is restored.
    #[tactic(auto, using(crate::proofs::Back::part_back))]
    pub fn of(part: &Rx5c348a) -> Saved348
        ensures value { result ≡ saved (seen part.now) }
        ensures back { restored result ≡ Some (seen part.now) }
    {
        Saved348 {
            mark: MARK,
            registers: SavedFile::of(&part.registers),
            ce: u8::from(part.ce),
            sclk: u8::from(part.sclk),
            transfer: SavedTransfer::of(part.transfer),
        }
    }

    // The part that the record is the saved state of.
    pub fn restore(&self) -> Option<Rx5c348a>
        ensures value { option_map seen result ≡ restored self.now }
        ensures same { IfSome result (λ part. saved (seen part) ≡ self.now) }
    {
        if self.mark != MARK {
            return None;
        }
        let registers = self.registers.restore()?;
        let ce = flag_numbered(self.ce)?;
        let sclk = flag_numbered(self.sclk)?;
        let transfer = self.transfer.restore()?;
        // CE high is what a transfer runs under, and what holds the core.
        if transfer.is_under_way() != ce || registers.core.is_held() != ce {
            return None;
        }
        Some(Rx5c348a {
            registers,
            ce,
            sclk,
            transfer,
        })
    }
}
