// The part's record.
ghost use Rattle.std.specs.Prelude.{◌≡◌};
ghost use Rattle.serial_transfer.specs.Phase.{under_way};
ghost use Rattle.clock_core.specs.View.{is_held};

use rx5c_registers::file::RegisterFile;
use serial_transfer::transfer::Transfer;

#[derive(Drop)]
pub struct Rx5c348a {
    pub registers: RegisterFile,
    // the levels that CE and SCLK were given last; SI counts only in its call
    pub ce: bool,
    pub sclk: bool,
    pub transfer: Transfer,
    // CE high is what a transfer runs under, and what holds the core
    pub ghost under_way_while_selected: { under_way transfer.phase ≡ ce },
    pub ghost held_while_selected: { is_held registers.core.hold ≡ ce },
}
