// A map of cells over the calendar: what they show, and the calls of a register map.
ghost use Rattle.std.specs.Prelude.{◌≡◌, replicate, Some, refl};
ghost use Rattle.std.specs.Option.{option_map};
ghost use Rattle.register_map.specs.Chart.{advanced, map_state};
ghost use Rattle.register_map.specs.declared.hour_mode.HourMode.TheVariants.{Twelve};
ghost use Rattle.calendar.specs.Fields.{chart_of};
ghost use Rattle.calendar.specs.Views.{fields_read};
ghost use Rattle.calendar.proofs.FieldLaws.{lawful_chart};

use crate::cells::FieldCells;
use calendar::reading::Reading;
use register_map::hour_mode::HourMode;
use register_map::map::RegisterMap;
use register_map::shown::Shown;

const DAYS_OF_A_WEEK: u8 = 7;

#[derive(Clone, Copy)]
pub struct CivilMap<C> {
    pub cells: C,
    pub mode: HourMode,
}

impl<C: FieldCells> CivilMap<C> {
    // Zeros in 12-hour mode, which show no moment.
    pub fn fresh() -> CivilMap<C>
        ensures { map_state (C.cells result.cells) result.mode ≡ map_state (replicate C.CELLS 0) Twelve }
    {
        CivilMap {
            cells: C::zeros(),
            mode: HourMode::Twelve,
        }
    }

    // What the cells spell, if they do.
    fn reading(&self) -> Option<Reading>
        ensures { option_map fields_read result ≡ C.read self.now.mode (C.cells self.now.cells) }
    {
        let time = self.cells.time(self.mode)?;
        let date = self.cells.date()?;
        let weekday = self.cells.weekday();
        if weekday >= DAYS_OF_A_WEEK {
            return None;
        }
        Some(Reading {
            date,
            time,
            weekday,
        })
    }

    // The moment and weekday shown.
    pub fn shown(&self) -> Option<Shown>
        ensures { result ≡ (chart_of C.YEARS C.CELLS C.used C.written C.read).reads self.now.mode (C.cells self.now.cells) }
    {
        let reading = self.reading()?;
        Some(reading.shown())
    }

    // One second on from what the cells spell: only the cells that change are written.
    fn carry(&mut self, from: Reading)
        requires { C.read self.old.mode (C.cells self.old.cells) ≡ Some (fields_read from) }
        ensures { map_state (C.cells self.new.cells) self.new.mode ≡ advanced (chart_of C.YEARS C.CELLS C.used C.written C.read) (map_state (C.cells self.old.cells) self.old.mode) }
    {
        let next = from.time.next();
        self.cells.put_second(next.second);
        if next.second != 0 {
            return;
        }
        self.cells.put_minute(next.minute);
        if next.minute != 0 {
            return;
        }
        self.cells.put_hour(self.mode, next.hour);
        if next.hour != 0 {
            return;
        }
        self.cells.put_weekday(from.next_weekday());
        self.cells.put_date(from.date.next(C::YEARS));
    }
}

impl<C: FieldCells> RegisterMap for CivilMap<C> {
    const CELLS: usize = C::CELLS;

    const CYCLE: u64 = C::CYCLE;

    ghost CELLS = { C.CELLS };

    ghost CYCLE = { C.CYCLE };

    ghost chart = { chart_of C.YEARS C.CELLS C.used C.written C.read };

    ghost cells = { λ m. C.cells m.cells };

    ghost mode = { λ m. m.mode };

    ghost shown = { λ m. (chart_of C.YEARS C.CELLS C.used C.written C.read).reads m.mode (C.cells m.cells) };

    ghost counted = { refl };

    ghost cycled = { C.cycled };

    ghost lawful = { lawful_chart C.YEARS C.CELLS C.used C.written C.read C.spells };

    ghost shows = { λ _. refl };

    ghost whole = { λ m. C.whole m.cells };

    fn read(&self, cell: usize) -> u8 {
        self.cells.get(cell)
    }

    fn put(&mut self, cell: usize, byte: u8) {
        self.cells.put(cell, byte);
    }

    fn hour_mode(&self) -> HourMode {
        self.mode
    }

    fn set_hour_mode(&mut self, to: HourMode) {
        self.mode = to;
    }

    fn show(&mut self, at: Shown) {
        self.cells = C::row(self.mode, Reading::of(at));
    }

    fn advance(&mut self) {
        if let Some(reading) = self.reading() {
            self.carry(reading);
        }
    }

    fn seconds_value(&self) -> Option<u8> {
        let reading = self.reading()?;
        Some(reading.time.second)
    }
}
