// The example map round the end of its cycle.
use example_map::map::DayMap;
use register_map::hour_mode::HourMode;
use register_map::map::RegisterMap;

#[test]
fn the_day_comes_round(rt: HostRuntime) {
    let mut map = DayMap {
        cells: [59, 59, 23, 6],
        mode: HourMode::Twelve,
    };
    map.advance();
    assert!(rt; map.cells == [0, 0, 0, 0]);
    map.put(2, 0xFF);
    assert!(rt; map.cells == [0, 0, 0x1F, 0] && map.shown() == None);
}
