// How a core begins: made over a map, as power-on leaves it, or loaded.
ghost use Rattle.std.specs.Prelude.{◌≡◌};
ghost use Rattle.clock_core.specs.Core.{make_core, idle_core, load_core};
ghost use Rattle.clock_core.specs.View.{meant, meant_made, map_meant};

use crate::clock::{ClockCore, Hold, MakeRefused};
use crate::seconds::PLAIN_SECOND;
use crate::setting::Setting;
use refusals::Refusal;
use register_map::hour_mode::HourMode;
use register_map::map::RegisterMap;
use register_map::shown::Shown;

impl<M: RegisterMap> ClockCore<M> {
    // A released core over a map, at the beginning of a second.
    pub fn make(map: M, trim: u32) -> Result<ClockCore<M>, MakeRefused<M>>
        ensures { meant_made M.RegisterMap result
            ≡ make_core M.RegisterMap.chart (map_meant M.RegisterMap map) trim }
    {
        if trim > 127 {
            let refusal = Refusal::NoSuchSetting;
            return Err(MakeRefused { refusal, map });
        }
        if map.seconds_value().is_none() {
            let refusal = Refusal::ShowsNone;
            return Err(MakeRefused { refusal, map });
        }
        let mut core = ClockCore::idle(map);
        core.trim = trim as u8;
        core.begin_second();
        Ok(core)
    }

    // A core as power-on leaves it, over a map that need not show a moment.
    pub fn idle(map: M) -> ClockCore<M>
        ensures { meant M.RegisterMap result ≡ idle_core (map_meant M.RegisterMap map) }
    {
        ClockCore {
            map,
            trim: 0,
            position: 0,
            second_length: PLAIN_SECOND,
            hold: Hold::Released,
        }
    }

    // Shows a moment and weekday in an hour mode, with a trim, at the beginning of a second.
    pub fn load(&mut self, to: Setting) -> Result<(), Refusal>
        ensures { (result, meant M.RegisterMap self.new) ≡ load_core M.RegisterMap.chart (meant M.RegisterMap self.old) to.moment to.weekday to.trim to.mode }
    {
        if to.moment >= M::CYCLE || to.weekday > 6 {
            return Err(Refusal::NoSuchMoment);
        }
        if to.trim > 127 {
            return Err(Refusal::NoSuchSetting);
        }
        let mode = HourMode::try_from(to.mode).map_err(|_| Refusal::NoSuchSetting)?;
        self.map.set_hour_mode(mode);
        self.map.show(Shown {
            moment: to.moment,
            weekday: to.weekday as u8,
        });
        self.trim = to.trim as u8;
        self.hold = Hold::Released;
        self.begin_second();
        Ok(())
    }
}
