// The laws of the calendar, asked for by a contract so that no check passes without them.
ghost use Rattle.calendar.specs.Laws.{CalendarLaws};

pub fn calendar_keeps_its_laws()
    ensures { CalendarLaws }
{}
