// Where a transfer stands.
ghost use Rattle.std.specs.Prelude.{◌≡◌, ◌<◌, IfSome};
ghost use Rattle.std.specs.Option.{option_map};
ghost use Rattle.serial_transfer.specs.Levels.{out_number};
ghost use Rattle.saved_parts.specs.Flags.{flag_numbered};
ghost use Rattle.saved_parts.specs.Transfers.{out_numbered, blank, transfer_saved, header_read, write_read, read_read, transfer_restored};

use crate::flags::flag_numbered;
use serial_transfer::phase::{Phase, SerialOut};
use serial_transfer::transfer::Transfer;

#[repr(C)]
#[derive(Clone, Copy, PartialEq, Eq, Debug)]
pub struct SavedTransfer {
    // 0 idle, 1 header, 2 write, 3 read, 4 deaf; what a phase does not have is 0
    pub phase: u8,
    pub address: u8,
    pub burst: u8,
    pub bits: u8,
    pub byte: u8,
    pub out: u8,
}

fn out_numbered(number: u8) -> Option<SerialOut>
    ensures value { result ≡ out_numbered number }
    ensures same { IfSome result (λ out. out_number out ≡ number) }
{
    match number {
        0 => Some(SerialOut::Low),
        1 => Some(SerialOut::High),
        2 => Some(SerialOut::Off),
        _ => None,
    }
}

impl SavedTransfer {
    pub(crate) fn of(transfer: Transfer) -> SavedTransfer
        ensures { result ≡ transfer_saved transfer.phase }
    {
        let nothing = SavedTransfer {
            phase: 0,
            address: 0,
            burst: 0,
            bits: 0,
            byte: 0,
            out: 0,
        };
        match transfer.phase {
            Phase::Idle => nothing,
            Phase::Header { bits, gathered } => SavedTransfer {
                phase: 1,
                bits,
                byte: gathered,
                ..nothing
            },
            Phase::Write {
                address,
                burst,
                bits,
                gathered,
            } => SavedTransfer {
                phase: 2,
                address,
                burst: u8::from(burst),
                bits,
                byte: gathered,
                out: 0,
            },
            Phase::Read {
                address,
                burst,
                bits,
                byte,
                out,
            } => SavedTransfer {
                phase: 3,
                address,
                burst: u8::from(burst),
                bits,
                byte,
                out: u8::from(out),
            },
            Phase::Deaf => SavedTransfer {
                phase: 4,
                ..nothing
            },
        }
    }

    // Nothing but the phase is there.
    fn blank(self) -> bool
        ensures { result ≡ blank self }
    {
        self.address == 0 && self.burst == 0 && self.bits == 0 && self.byte == 0 && self.out == 0
    }

    fn header(self) -> Option<Transfer>
        requires { self.bits < 8 }
        ensures value { option_map (λ t. t.phase) result ≡ header_read self }
        ensures same { self.phase ≡ 1 → IfSome result (λ t. transfer_saved t.phase ≡ self) }
    {
        if self.address != 0 || self.burst != 0 || self.out != 0 {
            return None;
        }
        Some(Transfer {
            phase: Phase::Header {
                bits: self.bits,
                gathered: self.byte,
            },
        })
    }

    fn write(self) -> Option<Transfer>
        requires { (self.bits < 8) × (self.address < 16) }
        ensures value { option_map (λ t. t.phase) result ≡ write_read self (flag_numbered self.burst) }
        ensures same { self.phase ≡ 2 → IfSome result (λ t. transfer_saved t.phase ≡ self) }
    {
        let burst = flag_numbered(self.burst)?;
        if self.out != 0 {
            return None;
        }
        Some(Transfer {
            phase: Phase::Write {
                address: self.address,
                burst,
                bits: self.bits,
                gathered: self.byte,
            },
        })
    }

    fn read(self) -> Option<Transfer>
        requires { (self.bits < 8) × (self.address < 16) }
        ensures value { option_map (λ t. t.phase) result ≡ read_read self (flag_numbered self.burst) (out_numbered self.out) }
        ensures same { self.phase ≡ 3 → IfSome result (λ t. transfer_saved t.phase ≡ self) }
    {
        let burst = flag_numbered(self.burst)?;
        let out = out_numbered(self.out)?;
        Some(Transfer {
            phase: Phase::Read {
                address: self.address,
                burst,
                bits: self.bits,
                byte: self.byte,
                out,
            },
        })
    }

    pub(crate) fn restore(self) -> Option<Transfer>
        ensures value { option_map (λ t. t.phase) result ≡ transfer_restored self }
        ensures same { IfSome result (λ t. transfer_saved t.phase ≡ self) }
    {
        if self.address > 15 || self.bits > 7 {
            return None;
        }
        match self.phase {
            0 if self.blank() => Some(Transfer { phase: Phase::Idle }),
            1 => self.header(),
            2 => self.write(),
            3 => self.read(),
            4 if self.blank() => Some(Transfer { phase: Phase::Deaf }),
            _ => None,
        }
    }
}
