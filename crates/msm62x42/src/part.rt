// The part's record: all that it keeps is its core, which has no trim.
ghost use Rattle.std.specs.Prelude.{◌≡◌};

use clock_core::clock::ClockCore;
use digit_map::map::DigitMap;

#[derive(Drop)]
pub struct Msm62x42 {
    pub core: ClockCore<DigitMap>,
    pub ghost untrimmed: { core.trim ≡ 0 },
    pub ghost plain_second: { core.second_length ≡ 32768 },
}
