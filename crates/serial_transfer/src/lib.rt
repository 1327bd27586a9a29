// Headers and data of the serial clock parts: what the edges of CE and SCLK do, bit by bit.
#![tactic(auto)]

pub mod bits;
pub mod bursts;
pub mod bytes;
mod data;
pub mod edges;
pub mod header;
pub mod phase;
pub mod transfer;
