// What a part does to its core beyond its calls.
ghost use Rattle.std.specs.Prelude.{◌≡◌};
ghost use Rattle.clock_core.specs.Core.{set_trim, set_core_mode, restart_second};
ghost use Rattle.clock_core.specs.View.{meant};

use crate::clock::{ClockCore, Hold};
use register_map::hour_mode::HourMode;
use register_map::map::RegisterMap;

impl<M: RegisterMap> ClockCore<M> {
    // Seven bits of a byte; the running second keeps its length.
    pub fn set_trim(&mut self, byte: u8)
        ensures { meant M.RegisterMap self.new ≡ set_trim (meant M.RegisterMap self.old) byte }
    {
        self.trim = byte % 128;
    }

    pub fn set_hour_mode(&mut self, to: HourMode)
        ensures { meant M.RegisterMap self.new ≡ set_core_mode (meant M.RegisterMap self.old) to }
    {
        self.map.set_hour_mode(to);
    }

    // A second begins anew; a boundary that waits is gone.
    pub fn restart_second(&mut self)
        ensures { meant M.RegisterMap self.new ≡ restart_second M.RegisterMap.chart (meant M.RegisterMap self.old) }
    {
        if self.is_held() {
            self.hold = Hold::Held {
                boundary_waits: false,
            };
        }
        self.begin_second();
    }
}
