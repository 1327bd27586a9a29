// The 62X42.
ghost use Rattle.std.specs.Prelude.{◌≡◌};
ghost use Rattle.saved_parts.specs.Calls62.{powered_on, loaded, pulsed, register_read, register_written, let_go, looked};

use saved_parts::part62::Saved62;

#[unsafe(no_mangle)]
pub extern "C" fn clock62_power_on(part: &mut Saved62) -> u32
    ensures { (result, part.new) ≡ powered_on }
{
    part.power_on()
}

#[unsafe(no_mangle)]
pub extern "C" fn clock62_load(part: &mut Saved62, moment: u64, weekday: u32, mode: u32) -> u32
    ensures { (result, part.new) ≡ loaded part.old moment weekday mode }
{
    part.load(moment, weekday, mode)
}

#[unsafe(no_mangle)]
pub extern "C" fn clock62_pulses(part: &mut Saved62, count: u32) -> u32
    ensures { (result, part.new) ≡ pulsed part.old count }
{
    part.pulses(count)
}

#[unsafe(no_mangle)]
pub extern "C" fn clock62_read(part: &Saved62, address: u32) -> u32
    ensures { result ≡ register_read part.now address }
{
    part.read(address)
}

#[unsafe(no_mangle)]
pub extern "C" fn clock62_write(part: &mut Saved62, address: u32, data: u32) -> u32
    ensures { (result, part.new) ≡ register_written part.old address «data» }
{
    part.write(address, data)
}

#[unsafe(no_mangle)]
pub extern "C" fn clock62_deselect(part: &mut Saved62) -> u32
    ensures { (result, part.new) ≡ let_go part.old }
{
    part.deselect()
}

#[unsafe(no_mangle)]
pub extern "C" fn clock62_look(part: &Saved62, buffer: &mut [u8]) -> u32
    ensures { (result, buffer.new) ≡ looked part.now buffer.old }
{
    part.look(buffer)
}
