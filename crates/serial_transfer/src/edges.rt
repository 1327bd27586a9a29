// The edges of CE and SCLK.
ghost use Rattle.std.specs.Prelude.{◌≡◌, ◌<◌, IfSome};
ghost use Rattle.serial_transfer.specs.declared.phase.Phase.TheVariants.{Idle};
ghost use Rattle.serial_transfer.specs.Phase.{under_way};
ghost use Rattle.serial_transfer.specs.Rules.{fresh_header, out_in, awaits, due_in, risen, fallen, header_taken};

use crate::bits::{bit_of, taken_in};
use crate::data::DataByte;
use crate::header::{FRESH_HEADER, transfer_after_header};
use crate::phase::{Landing, Phase, SerialOut};
use crate::transfer::Transfer;

impl Transfer {
    // With CE low.
    pub fn idle() -> Transfer
        ensures { result.phase ≡ Idle }
    {
        Transfer { phase: Phase::Idle }
    }

    // CE rises: a header follows.
    pub fn begin(&mut self)
        ensures { self.new.phase ≡ fresh_header }
    {
        *self = FRESH_HEADER;
    }

    // CE falls: an unfinished byte is dropped, and SO is off.
    pub fn end(&mut self)
        ensures { self.new.phase ≡ Idle }
    {
        self.phase = Phase::Idle;
    }

    // What stands on SO.
    pub fn out(&self) -> SerialOut
        ensures { result ≡ out_in self.now.phase }
    {
        match self.phase {
            Phase::Read { out, .. } => out,
            _ => SerialOut::Off,
        }
    }

    // CE is high: a header or data, or what the part is deaf to.
    pub fn is_under_way(&self) -> bool
        ensures { result ≡ under_way self.now.phase }
    {
        !matches!(self.phase, Phase::Idle)
    }

    // CE is high, and no bit of a header is in yet.
    pub fn awaits_header(&self) -> bool
        ensures { result ≡ awaits self.now.phase }
    {
        matches!(self.phase, Phase::Header { bits: 0, .. })
    }

    // The address of the byte that the next rise fixes, if it fixes one.
    pub fn due(&self) -> Option<u8>
        ensures value { result ≡ due_in self.now.phase }
        ensures within { IfSome result (λ a. a < 16) }
    {
        match self.phase {
            Phase::Read {
                address,
                bits: 0,
                ..
            } => Some(address),
            _ => None,
        }
    }

    // SCLK rises: in read data, one bit more goes on SO. `due_byte` is the byte of the register that is due.
    pub fn rise(&mut self, due_byte: u8)
        ensures { self.new.phase ≡ risen self.old.phase due_byte }
    {
        if let Phase::Read {
            address,
            burst,
            bits,
            byte,
            ..
        } = self.phase
        {
            let byte = if bits == 0 { due_byte } else { byte };
            let out = SerialOut::of_bit(bit_of(byte, 7 - bits));
            self.phase = Phase::Read {
                address,
                burst,
                bits,
                byte,
                out,
            };
        }
    }

    // SCLK falls: a bit is taken from SI, or given. Answers what has landed.
    // SI is a number, of which the lowest bit counts: a truth value would take less than callers may give.
    pub fn fall(&mut self, si: u8) -> Option<Landing>
        ensures value { (result, self.new.phase) ≡ fallen self.old.phase si }
        ensures within { IfSome result (λ l. l.address < 16) }
    {
        match self.phase {
            Phase::Idle | Phase::Deaf => None,
            Phase::Header { bits, gathered } => {
                *self = with_header_bit(bits, taken_in(gathered, si));
                None
            }
            Phase::Write {
                address,
                burst,
                bits,
                gathered,
            } => {
                let data = DataByte {
                    address,
                    burst,
                    bits,
                };
                let (landing, after) = data.with_written_bit(taken_in(gathered, si));
                *self = after;
                landing
            }
            Phase::Read {
                address,
                burst,
                bits,
                byte,
                out,
            } => {
                let data = DataByte {
                    address,
                    burst,
                    bits,
                };
                *self = data.with_bit_given(byte, out);
                None
            }
        }
    }
}

// One more bit of a header is in: the eighth makes it whole.
fn with_header_bit(bits: u8, gathered: u8) -> Transfer
    requires { bits < 8 }
    ensures { result.phase ≡ header_taken bits gathered }
{
    if bits == 7 {
        transfer_after_header(gathered)
    } else {
        Transfer {
            phase: Phase::Header {
                bits: bits + 1,
                gathered,
            },
        }
    }
}
