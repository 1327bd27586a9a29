// A made-up register map, as short as one can be: the first to read for whoever writes a map of their own.
#![tactic(auto)]

pub mod map;
