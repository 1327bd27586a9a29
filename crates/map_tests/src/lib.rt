// Examples that the calendar and the maps must meet: each is proved safe, and then run.
#![tactic(auto)]

#[cfg(test)]
mod byte_cells;
#[cfg(test)]
mod calendar_days;
#[cfg(test)]
mod day_cells;
#[cfg(test)]
mod digit_cells;
#[cfg(test)]
mod shown_at;
#[cfg(test)]
mod still;
