// What a call on a record answers, in one number: up to 255 what was asked for, 256 and the number of a refusal.
ghost use Rattle.std.specs.Prelude.{◌≡◌};
ghost use Rattle.saved_parts.specs.Answers.{no_saved_state, refused, counted};

use refusals::Refusal;

// Refusal 255: the record is no saved state of the part.
pub const NO_SAVED_STATE: u32 = 511;

const REFUSED: u32 = 256;

pub(crate) fn refused(why: Refusal) -> u32
    ensures { result ≡ refused why }
{
    REFUSED + u32::from(u8::from(why))
}

// An answer with no refusal in it, or the refusal.
pub(crate) fn counted(answer: Result<u8, Refusal>) -> u32
    ensures { result ≡ counted answer }
{
    match answer {
        Ok(number) => u32::from(number),
        Err(why) => refused(why),
    }
}
