// The length of a second.
ghost use Rattle.std.specs.Prelude.{◌≡◌, ◌<◌, ◌≤◌};
ghost use Rattle.clock_core.specs.Seconds.{trimmed_length, second_pulses};

// Pulses of a second that is not trimmed.
pub const PLAIN_SECOND: u32 = 32_768;

// The pulses of a trimmed second, for a trim byte below 128.
fn trimmed_second(trim: u8) -> u32
    requires { trim < 128 }
    ensures value { result ≡ trimmed_length trim }
    ensures low { 32644 ≤ result }
    ensures high { result ≤ 32892 }
{
    if trim < 64 {
        PLAIN_SECOND + 2 * (trim as u32).saturating_sub(1)
    } else if trim < 66 {
        PLAIN_SECOND
    } else {
        PLAIN_SECOND - 2 * (128 - trim as u32)
    }
}

// The pulses of a second that begins at a seconds value, or on a map that shows none.
pub(crate) fn length_of_second(trim: u8, value: Option<u8>) -> u32
    requires { trim < 128 }
    ensures value { result ≡ second_pulses trim value }
    ensures low { 32644 ≤ result }
    ensures high { result ≤ 32892 }
{
    match value {
        Some(v) if v % 20 == 0 => trimmed_second(trim),
        _ => PLAIN_SECOND,
    }
}
