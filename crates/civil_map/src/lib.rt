// Register maps over the calendar, written once over the ways in which dates, times of day and weekdays stand in cells.
#![tactic(auto)]

pub mod cells;
pub mod map;
pub mod masks;
