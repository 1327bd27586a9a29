// The digit map: the map of the calendar over cells of one digit each.
ghost use Rattle.std.specs.Prelude.{◌≡◌};
ghost use Rattle.digit_map.specs.Cells.{digit_chart};

use crate::cells::DigitCells;
use civil_map::map::CivilMap;
use register_map::map::RegisterMap;

pub type DigitMap = CivilMap<DigitCells>;

// What the map states of itself is the chart of the definitions.
pub fn digit_map_keeps_its_chart()
    ensures { ⟦<CivilMap<DigitCells> as RegisterMap>⟧.chart ≡ digit_chart }
{}
