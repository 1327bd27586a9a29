// The interface of a register map.
ghost use Rattle.std.specs.Prelude.{◌≡◌, ℕ, ◌<◌, List, length, Option, slice_index};
ghost use Rattle.std.specs.Option.{option_map};
ghost use Rattle.register_map.specs.Chart.{Chart, Showable, Lawful, map_state, shown_by, put_byte, set_mode, showing, advanced, second_of};
ghost use Rattle.register_map.specs.declared.hour_mode.HourMode.{HourMode as ModeOfHours};
ghost use Rattle.register_map.specs.declared.shown.Shown.{Shown as MomentShown};

use crate::hour_mode::HourMode;
use crate::shown::Shown;

pub trait RegisterMap {
    // The number of cells, at most 16.
    const CELLS: usize;

    // The seconds of its cycle: whole days.
    const CYCLE: u64;

    ghost CELLS: { ℕ };

    ghost CYCLE: { ℕ };

    // What the map states of itself: cells, cycle, used bits, code, and how cells are read back.
    ghost chart: { Chart };

    // What a map means: its cells, its hour mode, and the moment and weekday that it shows, or none.
    ghost cells: { Self → List ℕ };

    ghost mode: { Self → ModeOfHours };

    ghost shown: { Self → Option MomentShown };

    fn read(&self, cell: usize) -> u8
        requires { cell < chart.count }
        ensures { result ≡ slice_index (cells self.now) cell };

    // Replaces one cell; its unused bits are cleared.
    fn put(&mut self, cell: usize, byte: u8)
        requires { cell < chart.count }
        ensures { map_state (cells self.new) (mode self.new)
            ≡ put_byte chart (map_state (cells self.old) (mode self.old)) cell byte };

    fn hour_mode(&self) -> HourMode
        ensures { result ≡ mode self.now };

    // The cells stay as they are, so what the map shows may change.
    fn set_hour_mode(&mut self, to: HourMode)
        ensures { map_state (cells self.new) (mode self.new)
            ≡ set_mode (map_state (cells self.old) (mode self.old)) to };

    fn show(&mut self, at: Shown)
        requires { Showable chart at }
        ensures { map_state (cells self.new) (mode self.new)
            ≡ showing chart (map_state (cells self.old) (mode self.old)) at };

    // One second on, round the cycle; nothing moves where nothing is shown.
    fn advance(&mut self)
        ensures { map_state (cells self.new) (mode self.new)
            ≡ advanced chart (map_state (cells self.old) (mode self.old)) };

    // The seconds value of the moment shown.
    fn seconds_value(&self) -> Option<u8>
        ensures { result ≡ option_map second_of (shown self.now) };

    ghost counted: { CELLS ≡ chart.count };

    ghost cycled: { CYCLE ≡ chart.cycle };

    ghost lawful: { Lawful chart };

    // It shows the moment and weekday whose code its cells are.
    ghost shows: { (m : Self) → shown m ≡ shown_by chart (map_state (cells m) (mode m)) };

    ghost whole: { (m : Self) → length (cells m) ≡ chart.count };
}
