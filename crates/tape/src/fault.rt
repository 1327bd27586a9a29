// What stops a tape.
ghost use Rattle.std.specs.Prelude.{◌≡◌};
ghost use Rattle.lines.specs.Lines.{fault_line};
ghost use Rattle.refusals.specs.Numbers.{number_of};
ghost use Rattle.tape.specs.Faults.{of_tape, of_part, at_place};

use crate::record::TapeRefusal;
use lines::{Origin, fault_line};
use refusals::Refusal;

// A record that is refused, before its place is known.
// Who refused stands beside the refusal: a line prints both, so two cases would be taken apart at once.
#[derive(Clone, Copy, PartialEq, Eq, Debug)]
pub struct RecordFault {
    pub refusal: Refusal,
    pub origin: Origin,
}

// Why a tape stopped, at which byte the record begins, and who refused it.
// Flat: its fields are public, and programs print them.
#[derive(Clone, Copy, PartialEq, Eq, Debug)]
pub struct TapeFault {
    pub refusal: Refusal,
    pub place: usize,
    pub origin: Origin,
}

impl From<TapeRefusal> for RecordFault {
    ghost from_gives = { λ refused fault. fault ≡ of_tape refused };

    fn from(refused: TapeRefusal) -> RecordFault {
        RecordFault {
            refusal: refused.into(),
            origin: Origin::Tape,
        }
    }
}

impl From<Refusal> for RecordFault {
    ghost from_gives = { λ refusal fault. fault ≡ of_part refusal };

    fn from(refusal: Refusal) -> RecordFault {
        RecordFault {
            refusal,
            origin: Origin::Part,
        }
    }
}

impl RecordFault {
    // The same fault, of the record whose kind byte stands at `place`.
    pub fn at(self, place: usize) -> TapeFault
        ensures { result ≡ at_place place self }
    {
        TapeFault {
            refusal: self.refusal,
            place,
            origin: self.origin,
        }
    }
}

impl TapeFault {
    // Its line at the front of a buffer; answers the line's length.
    pub fn line(self, out: &mut [u8]) -> Result<usize, Refusal>
        ensures { (result, out.new) ≡ fault_line (number_of self.refusal) self.place self.origin out.old }
    {
        fault_line(
            u64::from(u8::from(self.refusal)),
            self.place as u64,
            self.origin,
            out,
        )
    }
}
