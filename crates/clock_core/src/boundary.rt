// Pulses and boundaries: how a core counts its seconds.
ghost use Rattle.std.specs.Prelude.{◌≡◌, ◌+◌, ◌%◌, ◌<◌};
ghost use Rattle.std.specs.Option.{option_map};
ghost use Rattle.register_map.specs.Chart.{shown_by};
ghost use Rattle.clock_core.specs.Core.{begin_second, cross_boundary, pulses_left, run_to_boundary, give_pulses, counted_value};
ghost use Rattle.clock_core.specs.View.{meant};

use crate::clock::{ClockCore, Hold};
use crate::seconds::length_of_second;
use refusals::Refusal;
use register_map::map::RegisterMap;

// The most pulses of one call.
pub const MOST_PULSES: u64 = 1_048_576;

// The seconds value one second later.
fn value_after(value: u8) -> u8
    requires { value < 60 }
    ensures { result ≡ (value + 1) % 60 }
{
    (value + 1) % 60
}

impl<M: RegisterMap> ClockCore<M> {
    // The seconds value by which the length of a second is chosen, a boundary that waits being counted.
    fn counted_seconds(&self) -> Option<u8>
        ensures { result ≡ option_map (counted_value M.RegisterMap.chart (meant M.RegisterMap self.now).waits) (shown_by M.RegisterMap.chart (meant M.RegisterMap self.now).map) }
    {
        let value = self.map.seconds_value()?;
        if self.boundary_waits() {
            Some(value_after(value))
        } else {
            Some(value)
        }
    }

    // A second begins: its length is fixed by the trim of this instant.
    pub(crate) fn begin_second(&mut self)
        ensures { meant M.RegisterMap self.new ≡ begin_second M.RegisterMap.chart (meant M.RegisterMap self.old) }
    {
        let value = self.counted_seconds();
        self.second_length = length_of_second(self.trim, value);
        self.position = 0;
    }

    // A boundary moves the map on, or waits where the core is held; a second one in a stretch is lost.
    fn cross_boundary(&mut self)
        ensures { meant M.RegisterMap self.new ≡ cross_boundary M.RegisterMap.chart (meant M.RegisterMap self.old) }
    {
        match self.hold {
            Hold::Held { .. } => {
                self.hold = Hold::Held {
                    boundary_waits: true,
                };
            }
            Hold::Released => {
                self.map.advance();
            }
        }
        self.begin_second();
    }

    // How many pulses there are to the next boundary.
    pub fn pulses_to_boundary(&self) -> u32
        ensures { result ≡ pulses_left (meant M.RegisterMap self.now) }
    {
        self.second_length - self.position
    }

    // Takes pulses up to the next boundary, at most so many; answers how many are left.
    pub fn run_to_boundary(&mut self, count: u32) -> u32
        ensures { (result, meant M.RegisterMap self.new) ≡ run_to_boundary M.RegisterMap.chart (meant M.RegisterMap self.old) count }
    {
        let needed = self.pulses_to_boundary();
        if count < needed {
            self.position += count;
            return 0;
        }
        self.cross_boundary();
        count - needed
    }

    // Takes pulses, one boundary after the other.
    pub fn pulses(&mut self, count: u64) -> Result<(), Refusal>
        ensures { (result, meant M.RegisterMap self.new) ≡ give_pulses M.RegisterMap.chart (meant M.RegisterMap self.old) count }
    {
        if count > MOST_PULSES {
            return Err(Refusal::TooManyPulses);
        }
        let mut left = count as u32;
        while left > 0 {
            left = self.run_to_boundary(left);
        }
        Ok(())
    }
}
