// Truth values by number: a record has no other form for them, since its bytes come from anywhere.
ghost use Rattle.std.specs.Prelude.{◌≡◌, IfSome};
ghost use Rattle.saved_parts.specs.Flags.{flag_number, flag_numbered};

// 0 and 1; no other number is one.
pub(crate) fn flag_numbered(number: u8) -> Option<bool>
    ensures value { result ≡ flag_numbered number }
    ensures same { IfSome result (λ flag. flag_number flag ≡ number) }
{
    match number {
        0 => Some(false),
        1 => Some(true),
        _ => None,
    }
}
