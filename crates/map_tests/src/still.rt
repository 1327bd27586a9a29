// Cells that show none.
use civil_map::cells::FieldCells;
use civil_map::map::CivilMap;
use register_map::hour_mode::HourMode;
use register_map::map::RegisterMap;
use std::process::Abort;

// They stay as they are when a second passes.
pub(crate) fn stands_still<C: FieldCells + PartialEq>(rt: &impl Abort, cells: C, mode: HourMode) {
    let mut map = CivilMap { cells, mode };
    assert!(rt; map.shown() == None);
    map.advance();
    assert!(rt; map.cells == cells);
}
