// The day map: a second, a minute, an hour and a weekday as plain binary numbers, over a cycle of one day.
ghost use Rattle.std.specs.Prelude.{◌≡◌, length, refl};
ghost use Rattle.register_map.specs.Chart.{map_state};
ghost use Rattle.example_map.specs.Cells.{day_chart};
ghost use Rattle.example_map.specs.DayLaws.{day_chart_lawful};

use register_map::hour_mode::HourMode;
use register_map::map::RegisterMap;
use register_map::shown::Shown;

// The used bits of each cell, as the definitions have them.
const USED_BITS: [u8; 4] = [0x3F, 0x3F, 0x1F, 0x07];

// A map holds its cells and its hour mode. The ghost field says what the type alone does not tell a proof.
#[derive(Clone, Copy)]
pub struct DayMap {
    pub cells: [u8; 4],
    pub mode: HourMode,
    ghost four: { length cells ≡ 4 },
}

impl DayMap {
    // What the cells show: the moment and weekday that they are the code of, or none.
    pub fn shown(&self) -> Option<Shown>
        ensures { result ≡ day_chart.reads self.now.mode self.now.cells }
    {
        let [second, minute, hour, weekday] = self.cells;
        if second < 60 && minute < 60 && hour < 24 && weekday < 7 {
            Some(Shown {
                moment: 3600 * hour as u64 + 60 * minute as u64 + second as u64,
                weekday,
            })
        } else {
            None
        }
    }
}

impl RegisterMap for DayMap {
    // What the map states, for code ..
    const CELLS: usize = 4;

    const CYCLE: u64 = 86_400;

    // .. and for proofs: its chart, and what a value of it means.
    ghost CELLS = { 4 };

    ghost CYCLE = { 86400 };

    ghost chart = { day_chart };

    ghost cells = { λ m. m.cells };

    ghost mode = { λ m. m.mode };

    ghost shown = { λ m. day_chart.reads m.mode m.cells };

    ghost counted = { refl };

    ghost cycled = { refl };

    ghost lawful = { day_chart_lawful };

    ghost shows = { λ _. refl };

    ghost whole = { λ m. m.four };

    fn read(&self, cell: usize) -> u8 {
        self.cells[cell]
    }

    fn put(&mut self, cell: usize, byte: u8) {
        self.cells[cell] = byte & USED_BITS[cell];
    }

    fn hour_mode(&self) -> HourMode {
        self.mode
    }

    // The cells stay; this map writes its hours alike in both modes.
    fn set_hour_mode(&mut self, to: HourMode) {
        self.mode = to;
    }

    fn show(&mut self, at: Shown) {
        self.cells = [
            (at.moment % 60) as u8,
            (at.moment / 60 % 60) as u8,
            (at.moment / 3600) as u8,
            at.weekday,
        ];
    }

    // The next moment round the cycle, and the next weekday at midnight. Cells that show none stay.
    fn advance(&mut self) {
        if let Some(now) = self.shown() {
            let moment = (now.moment + 1) % Self::CYCLE;
            let weekday = if moment == 0 {
                (now.weekday + 1) % 7
            } else {
                now.weekday
            };
            self.show(Shown { moment, weekday });
        }
    }

    fn seconds_value(&self) -> Option<u8> {
        let now = self.shown()?;
        Some((now.moment % 60) as u8)
    }
}
