// The transfer's record.
ghost use Rattle.std.specs.Prelude.{◌<◌};
ghost use Rattle.serial_transfer.specs.Phase.{bits_through, address_of};

use crate::phase::Phase;

#[derive(Clone, Copy, PartialEq, Eq, Debug)]
pub struct Transfer {
    pub phase: Phase,
    ghost byte_unfinished: { bits_through phase < 8 },
    ghost four_bits: { address_of phase < 16 },
}
