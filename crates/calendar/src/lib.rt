// The calendar that every register map shares: months, dates, times of day, moments, and numbers in decimal digits.
#![tactic(auto)]

pub mod date;
pub mod dates;
pub mod decimal;
pub mod digits;
pub mod hour_face;
pub mod laws;
pub mod moments;
pub mod months;
pub mod reading;
pub mod readings;
pub mod spelling;
pub mod time_of_day;
pub mod times;
