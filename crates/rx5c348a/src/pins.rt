// The four wires and /INTR.
ghost use Rattle.std.specs.Prelude.{◌≡◌};
ghost use Rattle.rx5c348a.specs.Pins.{answer_in, level_number, awaits_header, ce_risen, ce_fallen, sclk_risen, sclk_fallen, move_of, Tells, after_move, pins_part};
ghost use Rattle.rx5c348a.specs.Part.{seen};

use crate::part::Rx5c348a;
use refusals::Refusal;
use serial_transfer::phase::SerialOut;

// Pin levels are the sum of these. They come as a number, so that one that is no levels is refused by number.
pub const CE: u64 = 4;

pub const SCLK: u64 = 2;

pub const SI: u64 = 1;

// The level of a line that is always driven.
#[derive(Clone, Copy, PartialEq, Eq, Debug)]
pub enum Level {
    Low,
    High,
}

impl From<Level> for u8 {
    ghost from_gives = { λ level number. number ≡ level_number level };

    fn from(level: Level) -> u8 {
        match level {
            Level::Low => 0,
            Level::High => 1,
        }
    }
}

// What new levels of the pins do, where they are not refused.
#[derive(Clone, Copy, PartialEq, Eq, Debug)]
pub enum PinMove {
    // neither CE nor SCLK changes
    Still,
    CeRises,
    CeFalls,
    SclkRises,
    // with the bit that stands on SI
    SclkFalls(u8),
}

// What a part answers to pin levels.
#[derive(Clone, Copy, PartialEq, Eq, Debug)]
pub struct PinAnswer {
    pub so: SerialOut,
    pub intr: Level,
}

impl Rx5c348a {
    // SO and /INTR as they stand.
    pub fn answer(&self) -> PinAnswer
        ensures { result ≡ answer_in (seen self.now) }
    {
        let so = self.transfer.out();
        let intr = if self.registers.interrupts() {
            Level::Low
        } else {
            Level::High
        };
        PinAnswer { so, intr }
    }

    // Selected, SCLK down, and the next bit would be the first of a header. Only while selected is a transfer under way.
    pub fn awaits_header(&self) -> bool
        ensures { result ≡ awaits_header (seen self.now) }
    {
        self.transfer.awaits_header() && !self.sclk
    }

    // Holds the calendar; a header follows.
    fn ce_rises(&mut self)
        ensures { seen self.new ≡ ce_risen (seen self.old) }
    {
        self.ce = true;
        self.registers.hold();
        self.transfer.begin();
    }

    // Lets the calendar go; the transfer ends where it stands, and SO goes off.
    fn ce_falls(&mut self)
        ensures { seen self.new ≡ ce_fallen (seen self.old) }
    {
        self.ce = false;
        self.registers.release();
        self.transfer.end();
    }

    // In read data one more bit goes on SO; where no byte is due any will do; the first of eight rises fixes the byte.
    fn sclk_rises(&mut self)
        ensures { seen self.new ≡ sclk_risen (seen self.old) }
    {
        self.sclk = true;
        let due_byte = self
            .transfer
            .due()
            .map_or(0, |address| self.registers.read(address));
        self.transfer.rise(due_byte);
    }

    // A bit is taken from SI; the eighth of a written byte lands it.
    #[tactic(auto, using(rx5c_registers::proofs::Effects::written_held))]
    fn sclk_falls(&mut self, si: u8)
        ensures { seen self.new ≡ sclk_fallen (seen self.old) si }
    {
        self.sclk = false;
        if let Some(landing) = self.transfer.fall(si) {
            self.registers.write(landing.address, landing.byte);
        }
    }

    // What levels do to the pins as they stand. Two changes at once leave open which came first.
    #[tactic(auto, using(crate::proofs::Moves::tells))]
    fn move_to(&self, levels: u64) -> Result<PinMove, Refusal>
        ensures value { result ≡ move_of self.now.ce self.now.sclk levels }
        ensures told { Tells self.now.ce self.now.sclk levels result }
    {
        if levels > CE + SCLK + SI {
            return Err(Refusal::NoSuchLevels);
        }
        let ce = levels & CE != 0;
        let sclk = levels & SCLK != 0;
        match (ce != self.ce, sclk != self.sclk) {
            (true, true) => Err(Refusal::TwoPinsChange),
            (true, false) if ce => Ok(PinMove::CeRises),
            (true, false) => Ok(PinMove::CeFalls),
            (false, true) if sclk => Ok(PinMove::SclkRises),
            (false, true) => Ok(PinMove::SclkFalls((levels & SI) as u8)),
            (false, false) => Ok(PinMove::Still),
        }
    }

    fn make(&mut self, pin_move: PinMove)
        ensures { seen self.new ≡ after_move (seen self.old) pin_move }
    {
        match pin_move {
            PinMove::Still => {}
            PinMove::CeRises => self.ce_rises(),
            PinMove::CeFalls => self.ce_falls(),
            PinMove::SclkRises => self.sclk_rises(),
            PinMove::SclkFalls(si) => self.sclk_falls(si),
        }
    }

    // New levels on CE, SCLK and SI.
    #[tactic(auto, unfolding(crate::specs::Pins::pins_part))]
    pub fn pins(&mut self, levels: u64) -> Result<PinAnswer, Refusal>
        ensures { (result, seen self.new) ≡ pins_part (seen self.old) levels }
    {
        let pin_move = self.move_to(levels)?;
        self.make(pin_move);
        Ok(self.answer())
    }
}
