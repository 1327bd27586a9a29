// What a register map means: its cells, its hour mode and the moment and weekday that it shows, or none.
// One core runs over any map that proves this meaning.
#![tactic(auto)]

pub mod hour_mode;
pub mod map;
pub mod shown;
