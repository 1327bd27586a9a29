// Host sessions over a 348A: idle, open or spent. Each call that ends a state takes it and answers the next,
// so that a call which does not fit a state does not build.
#![tactic(auto)]

pub mod bursts;
mod header;
pub mod idle;
pub mod open;
mod promises;
mod rest;
pub mod singles;
pub mod spent;
mod wires;
