// The 348A.
ghost use Rattle.std.specs.Prelude.{◌≡◌};
ghost use Rattle.saved_parts.specs.Calls348.{powered_on, loaded, halted, pulsed, driven, looked};

use clock_core::setting::Setting;
use saved_parts::part348::Saved348;

#[unsafe(no_mangle)]
pub extern "C" fn clock348_power_on(part: &mut Saved348) -> u32
    ensures { (result, part.new) ≡ powered_on }
{
    part.power_on()
}

#[unsafe(no_mangle)]
pub extern "C" fn clock348_load(
    part: &mut Saved348,
    moment: u64,
    weekday: u32,
    trim: u32,
    mode: u32,
) -> u32
    ensures { (result, part.new) ≡ loaded part.old moment weekday trim mode }
{
    part.load(Setting {
        moment,
        weekday,
        trim,
        mode,
    })
}

#[unsafe(no_mangle)]
pub extern "C" fn clock348_halt(part: &mut Saved348) -> u32
    ensures { (result, part.new) ≡ halted part.old }
{
    part.halt()
}

#[unsafe(no_mangle)]
pub extern "C" fn clock348_pulses(part: &mut Saved348, count: u32) -> u32
    ensures { (result, part.new) ≡ pulsed part.old count }
{
    part.pulses(count)
}

#[unsafe(no_mangle)]
pub extern "C" fn clock348_pins(part: &mut Saved348, levels: u32) -> u32
    ensures { (result, part.new) ≡ driven part.old levels }
{
    part.pins(levels)
}

#[unsafe(no_mangle)]
pub extern "C" fn clock348_look(part: &Saved348, buffer: &mut [u8]) -> u32
    ensures { (result, buffer.new) ≡ looked part.now buffer.old }
{
    part.look(buffer)
}
