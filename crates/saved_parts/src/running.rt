// A core but for its cells: the running second, what holds, hour mode and trim.
ghost use Rattle.std.specs.Prelude.{◌≡◌, IfSome};
ghost use Rattle.std.specs.Option.{option_map};
ghost use Rattle.register_map.specs.Chart.{map_state};
ghost use Rattle.register_map.specs.Modes.{mode_bit};
ghost use Rattle.clock_core.specs.View.{core_by, is_held, boundary_waits};
ghost use Rattle.saved_parts.specs.Running.{hold_number, hold_numbered, mode_read, core_saved, core_restored};

use civil_map::cells::FieldCells;
use civil_map::map::CivilMap;
use clock_core::clock::{ClockCore, Hold};
use register_map::hour_mode::HourMode;

#[repr(C)]
#[derive(Clone, Copy, PartialEq, Eq, Debug)]
pub struct SavedCore {
    pub position: u32,
    pub second_length: u32,
    // 0 released, 1 held, 2 held with a boundary that waits
    pub hold: u16,
    // 0 for 12 hours, 1 for 24
    pub mode: u8,
    pub trim: u8,
}

fn hold_number(hold: Hold) -> u16
    ensures { result ≡ hold_number (is_held hold) (boundary_waits hold) }
{
    match hold {
        Hold::Released => 0,
        Hold::Held { boundary_waits } => { if boundary_waits { 2 } else { 1 } }
    }
}

fn hold_numbered(number: u16) -> Option<Hold>
    ensures value { result ≡ hold_numbered number }
    ensures same { IfSome result (λ hold. hold_number (is_held hold) (boundary_waits hold) ≡ number) }
{
    match number {
        0 => Some(Hold::Released),
        1 => Some(Hold::Held {
            boundary_waits: false,
        }),
        2 => Some(Hold::Held {
            boundary_waits: true,
        }),
        _ => None,
    }
}

fn mode_read(number: u8) -> Option<HourMode>
    ensures value { result ≡ mode_read number }
    ensures same { IfSome result (λ mode. mode_bit 1 mode ≡ number) }
{
    HourMode::try_from(u32::from(number)).ok()
}

impl SavedCore {
    pub(crate) fn of<C: FieldCells>(core: &ClockCore<CivilMap<C>>) -> SavedCore
        ensures { result ≡ core_saved (core_by (λ m. map_state (C.cells m.cells) m.mode) core.now) }
    {
        SavedCore {
            position: core.position,
            second_length: core.second_length,
            hold: hold_number(core.hold),
            mode: core.map.mode.bit(1),
            trim: core.trim,
        }
    }

    // The core over these cells, where all its numbers are such as a core keeps.
    pub(crate) fn restore<C: FieldCells>(self, cells: C) -> Option<ClockCore<CivilMap<C>>>
        ensures value { option_map (core_by (λ m. map_state (C.cells m.cells) m.mode)) result ≡ core_restored self (C.cells cells) }
        ensures same { IfSome result (λ core. core_saved (core_by (λ m. map_state (C.cells m.cells) m.mode) core) ≡ self) }
    {
        let hold = hold_numbered(self.hold)?;
        let mode = mode_read(self.mode)?;
        if self.trim >= 128
            || self.position >= self.second_length
            || self.second_length < 32_644
            || self.second_length > 32_892
        {
            return None;
        }
        Some(ClockCore {
            map: CivilMap { cells, mode },
            trim: self.trim,
            position: self.position,
            second_length: self.second_length,
            hold,
        })
    }
}
