// The calls of a 348A on its record. Each answers one number (crate::answer).
ghost use Rattle.std.specs.Prelude.{◌≡◌};
ghost use Rattle.rx5c348a.specs.Part.{seen};
ghost use Rattle.saved_parts.specs.Answers.{kept};
ghost use Rattle.saved_parts.specs.Part348.{saved};
ghost use Rattle.saved_parts.specs.Calls348.{powered_on, pins_counted, loaded, halted, pulsed, driven, looked};

use crate::answer::{NO_SAVED_STATE, counted};
use crate::part348::Saved348;
use clock_core::setting::Setting;
use refusals::Refusal;
use rx5c348a::part::Rx5c348a;
use rx5c348a::pins::PinAnswer;

// SO, and /INTR in bit 2.
fn pins_counted(answer: PinAnswer) -> u8
    ensures { result ≡ pins_counted answer }
{
    u8::from(answer.so) + 4 * u8::from(answer.intr)
}

impl Saved348 {
    // An accepted call leaves the part saved, a refused one leaves the record.
    fn keep(&mut self, part: &Rx5c348a, answer: Result<u8, Refusal>) -> u32
        ensures { (result, self.new) ≡ kept saved self.old (answer, seen part.now) }
    {
        if answer.is_ok() {
            *self = Saved348::of(part);
        }
        counted(answer)
    }

    // Whatever the record was.
    pub fn power_on(&mut self) -> u32
        ensures { (result, self.new) ≡ powered_on }
    {
        *self = Saved348::of(&Rx5c348a::power_on());
        0
    }

    pub fn load(&mut self, to: Setting) -> u32
        ensures { (result, self.new) ≡ loaded self.old to.moment to.weekday to.trim to.mode }
    {
        let Some(mut part) = self.restore() else {
            return NO_SAVED_STATE;
        };
        let answer = part.load(to);
        self.keep(&part, answer.map(|()| 0))
    }

    pub fn halt(&mut self) -> u32
        ensures { (result, self.new) ≡ halted self.old }
    {
        let Some(mut part) = self.restore() else {
            return NO_SAVED_STATE;
        };
        part.halt();
        self.keep(&part, Ok(0))
    }

    pub fn pulses(&mut self, count: u32) -> u32
        ensures { (result, self.new) ≡ pulsed self.old count }
    {
        let Some(mut part) = self.restore() else {
            return NO_SAVED_STATE;
        };
        let answer = part.pulses(u64::from(count));
        self.keep(&part, answer.map(|()| 0))
    }

    pub fn pins(&mut self, levels: u32) -> u32
        ensures { (result, self.new) ≡ driven self.old levels }
    {
        let Some(mut part) = self.restore() else {
            return NO_SAVED_STATE;
        };
        let answer = part.pins(u64::from(levels));
        self.keep(&part, answer.map(pins_counted))
    }

    pub fn look(&self, buffer: &mut [u8]) -> u32
        ensures { (result, buffer.new) ≡ looked self.now buffer.old }
    {
        let Some(part) = self.restore() else {
            return NO_SAVED_STATE;
        };
        counted(part.look(buffer).map(|()| 0))
    }
}
