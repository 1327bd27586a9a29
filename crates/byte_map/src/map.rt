// The byte map: the map of the calendar over packed decimal cells.
ghost use Rattle.std.specs.Prelude.{◌≡◌};
ghost use Rattle.byte_map.specs.Cells.{byte_chart};

use crate::cells::ByteCells;
use civil_map::map::CivilMap;
use register_map::map::RegisterMap;

pub type ByteMap = CivilMap<ByteCells>;

// What the map states of itself is the chart of the definitions.
pub fn byte_map_keeps_its_chart()
    ensures { ⟦<CivilMap<ByteCells> as RegisterMap>⟧.chart ≡ byte_chart }
{}
