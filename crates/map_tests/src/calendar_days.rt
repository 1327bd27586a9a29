// Every day of two centuries, by its number and by steps from the day before.
use calendar::date::Date;
use calendar::months::month_length;

const DAYS: u32 = 73_050;

const YEARS: u8 = 200;

#[test]
fn every_day_follows_the_one_before(rt: HostRuntime) {
    let mut date = Date::from_day(0);
    for day in 0..DAYS {
        let direct = Date::from_day(day);
        assert!(rt; date == direct);
        assert!(rt; date.day_number() == day);
        assert!(rt; date.year < YEARS);
        date = date.next(YEARS);
    }
    assert!(rt; date.day_number() == 0, "the cycle comes round");
}

#[test]
fn february_of_every_year(rt: HostRuntime) {
    for year in 0..YEARS {
        let length = if year % 4 == 0 { 29 } else { 28 };
        assert!(rt; month_length(year, 2) == length);
    }
}
