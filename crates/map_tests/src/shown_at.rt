// What a map shows, in short.
ghost use Rattle.std.specs.Prelude.{◌≡◌};

use register_map::shown::Shown;

pub(crate) fn at(moment: u64, weekday: u8) -> Shown
    ensures { result ≡ record { moment = moment; weekday = weekday } }
{
    Shown { moment, weekday }
}
