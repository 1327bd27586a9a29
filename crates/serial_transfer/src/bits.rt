// Bits of a byte, highest first.
ghost use Rattle.std.specs.Prelude.{◌≡◌, ◌%◌, ◌<◌};
ghost use Rattle.serial_transfer.specs.Levels.{taken, bit_at};

// One bit more, behind those that are in; `level` counts by its lowest bit.
#[tactic(auto, using(crate::proofs::Shifts::shift_take))]
pub fn taken_in(gathered: u8, level: u8) -> u8
    ensures { result ≡ taken gathered level }
{
    (gathered << 1) | (level & 1)
}

/// A bit of a byte: 7 is the highest, 0 the lowest, and beyond 7 there is none that is set.
#[tactic(auto, using(crate::proofs::Shifts::no_bit))]
pub fn bit_of(byte: u8, place: u8) -> u8
    ensures { result ≡ bit_at byte place }
{
    if place < 8 { (byte >> place) & 1 } else { 0 }
}

// The low four bits.
pub(crate) fn low_half(byte: u8) -> u8
    ensures { result ≡ byte % 16 }
{
    byte & 0xF
}
