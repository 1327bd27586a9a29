// A 62X42 in a record.
ghost use Rattle.std.specs.Prelude.{◌≡◌, Some, IfSome};
ghost use Rattle.std.specs.Option.{option_map};
ghost use Rattle.msm62x42.specs.Part.{seen};
ghost use Rattle.saved_parts.specs.Part62.{saved, is_plain, restored};

use crate::running::SavedCore;
use clock_core::seconds::PLAIN_SECOND;
use digit_map::cells::DigitCells;
use msm62x42::part::Msm62x42;

// "62X4": zeros are no record of a part, and neither is the record of another part.
const MARK: u32 = 0x3458_3236;

#[repr(C)]
#[derive(Clone, Copy, PartialEq, Eq, Debug)]
pub struct Saved62 {
    pub mark: u32,
    pub core: SavedCore,
    pub cells: [u8; 13],
    // up to a whole number of words, so that no byte of a record is left open: 0
    pub spare: u8,
    pub spare_pair: u16,
}

// This part has no trim, and so only seconds of 32,768 pulses.
fn is_plain(core: SavedCore) -> bool
    ensures { result ≡ is_plain core }
{
    core.trim == 0 && core.second_length == PLAIN_SECOND
}

impl Saved62 {
    // A record from which the part is restored.
    #[tactic(auto, using(crate::proofs::Back::digits_back))]
    pub fn of(part: &Msm62x42) -> Saved62
        ensures value { result ≡ saved (seen part.now) }
        ensures back { restored result ≡ Some (seen part.now) }
    {
        Saved62 {
            mark: MARK,
            core: SavedCore::of(&part.core),
            cells: part.core.map.cells.digits,
            spare: 0,
            spare_pair: 0,
        }
    }

    // The part that the record is the saved state of.
    pub fn restore(&self) -> Option<Msm62x42>
        ensures value { option_map seen result ≡ restored self.now }
        ensures same { IfSome result (λ part. saved (seen part) ≡ self.now) }
    {
        if self.mark != MARK || self.spare != 0 || self.spare_pair != 0 || !is_plain(self.core) {
            return None;
        }
        let core = self.core.restore(DigitCells::from_digits(self.cells)?)?;
        Some(Msm62x42 { core })
    }
}
