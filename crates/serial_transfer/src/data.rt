// A data byte under way, and what follows it.
ghost use Rattle.std.specs.Prelude.{◌≡◌, ◌+◌, ◌<◌, IfSome};
ghost use Rattle.serial_transfer.specs.declared.phase.Phase.TheVariants.{Write, Read};
ghost use Rattle.serial_transfer.specs.Rules.{next_address, after_write, after_read, write_taken, read_given};

use crate::bits::low_half;
use crate::header::FRESH_HEADER;
use crate::phase::{Landing, Phase, SerialOut};
use crate::transfer::Transfer;

// The register that it is for, whether a burst goes on at the next one, and how many bits are through.
// It stands in no phase: a phase is public and bounds nothing, so this would ask more of whoever makes one.
#[derive(Clone, Copy)]
pub(crate) struct DataByte {
    pub(crate) address: u8,
    pub(crate) burst: bool,
    pub(crate) bits: u8,
    ghost four_bits: { address < 16 },
    ghost unfinished: { bits < 8 },
}

impl DataByte {
    // A byte that comes in.
    pub(crate) fn written(self, gathered: u8) -> Transfer
        ensures { result.phase ≡ Write self.address self.burst self.bits gathered }
    {
        Transfer {
            phase: Phase::Write {
                address: self.address,
                burst: self.burst,
                bits: self.bits,
                gathered,
            },
        }
    }

    // A byte that goes out.
    pub(crate) fn read(self, byte: u8, out: SerialOut) -> Transfer
        ensures { result.phase ≡ Read self.address self.burst self.bits byte out }
    {
        Transfer {
            phase: Phase::Read {
                address: self.address,
                burst: self.burst,
                bits: self.bits,
                byte,
                out,
            },
        }
    }

    // The first bit of the next register's byte; after 15 comes 0.
    fn next(self) -> DataByte
        ensures address { result.address ≡ next_address self.address }
        ensures burst { result.burst ≡ self.burst }
        ensures bits { result.bits ≡ 0 }
    {
        DataByte {
            address: low_half(self.address + 1),
            burst: self.burst,
            bits: 0,
        }
    }

    // One bit more of it is through.
    fn more(self) -> DataByte
        requires { self.bits < 7 }
        ensures address { result.address ≡ self.address }
        ensures burst { result.burst ≡ self.burst }
        ensures bits { result.bits ≡ self.bits + 1 }
    {
        DataByte {
            address: self.address,
            burst: self.burst,
            bits: self.bits + 1,
        }
    }

    // A burst goes on at the next register; otherwise a header follows.
    fn after_write(self) -> Transfer
        ensures { result.phase ≡ after_write self.address self.burst }
    {
        if self.burst {
            self.next().written(0)
        } else {
            FRESH_HEADER
        }
    }

    // A burst goes on at the next register, SO as it is; otherwise a header follows.
    fn after_read(self, out: SerialOut) -> Transfer
        ensures { result.phase ≡ after_read self.address self.burst out }
    {
        if self.burst {
            self.next().read(0, out)
        } else {
            FRESH_HEADER
        }
    }

    // One more bit of a written byte is in: the eighth lands it.
    pub(crate) fn with_written_bit(self, gathered: u8) -> (Option<Landing>, Transfer)
        ensures value { (result.0, result.1.phase) ≡ write_taken self.address self.burst self.bits gathered }
        ensures within { IfSome result.0 (λ l. l.address < 16) }
    {
        if self.bits == 7 {
            let landing = Landing {
                address: self.address,
                byte: gathered,
            };
            (Some(landing), self.after_write())
        } else {
            (None, self.more().written(gathered))
        }
    }

    // One more bit of a read byte is given out.
    pub(crate) fn with_bit_given(self, byte: u8, out: SerialOut) -> Transfer
        ensures { result.phase ≡ read_given self.address self.burst self.bits byte out }
    {
        if self.bits == 7 {
            self.after_read(out)
        } else {
            self.more().read(byte, out)
        }
    }
}
