// The calls of a 62X42 on its record. Each answers one number (crate::answer).
ghost use Rattle.std.specs.Prelude.{◌≡◌};
ghost use Rattle.msm62x42.specs.Part.{seen};
ghost use Rattle.saved_parts.specs.Answers.{kept};
ghost use Rattle.saved_parts.specs.Part62.{saved};
ghost use Rattle.saved_parts.specs.Calls62.{powered_on, loaded, pulsed, register_read, register_written, let_go, looked};

use crate::answer::{NO_SAVED_STATE, counted};
use crate::part62::Saved62;
use msm62x42::part::Msm62x42;
use refusals::Refusal;

impl Saved62 {
    // An accepted call leaves the part saved, a refused one leaves the record.
    fn keep(&mut self, part: &Msm62x42, answer: Result<u8, Refusal>) -> u32
        ensures { (result, self.new) ≡ kept saved self.old (answer, seen part.now) }
    {
        if answer.is_ok() {
            *self = Saved62::of(part);
        }
        counted(answer)
    }

    // Whatever the record was.
    pub fn power_on(&mut self) -> u32
        ensures { (result, self.new) ≡ powered_on }
    {
        *self = Saved62::of(&Msm62x42::power_on());
        0
    }

    pub fn load(&mut self, moment: u64, weekday: u32, mode: u32) -> u32
        ensures { (result, self.new) ≡ loaded self.old moment weekday mode }
    {
        let Some(mut part) = self.restore() else {
            return NO_SAVED_STATE;
        };
        let answer = part.load(moment, weekday, mode);
        self.keep(&part, answer.map(|()| 0))
    }

    pub fn pulses(&mut self, count: u32) -> u32
        ensures { (result, self.new) ≡ pulsed self.old count }
    {
        let Some(mut part) = self.restore() else {
            return NO_SAVED_STATE;
        };
        let answer = part.pulses(u64::from(count));
        self.keep(&part, answer.map(|()| 0))
    }

    pub fn read(&self, address: u32) -> u32
        ensures { result ≡ register_read self.now address }
    {
        let Some(part) = self.restore() else {
            return NO_SAVED_STATE;
        };
        counted(part.read(address))
    }

    pub fn write(&mut self, address: u32, data: u32) -> u32
        ensures { (result, self.new) ≡ register_written self.old address «data» }
    {
        let Some(mut part) = self.restore() else {
            return NO_SAVED_STATE;
        };
        let answer = part.write(address, data);
        self.keep(&part, answer.map(|()| 0))
    }

    pub fn deselect(&mut self) -> u32
        ensures { (result, self.new) ≡ let_go self.old }
    {
        let Some(mut part) = self.restore() else {
            return NO_SAVED_STATE;
        };
        part.deselect();
        self.keep(&part, Ok(0))
    }

    pub fn look(&self, buffer: &mut [u8]) -> u32
        ensures { (result, buffer.new) ≡ looked self.now buffer.old }
    {
        let Some(part) = self.restore() else {
            return NO_SAVED_STATE;
        };
        counted(part.look(buffer).map(|()| 0))
    }
}
