// The host's end of the four wires: its pin record, and bytes shifted into a 348A and out of it.
#![tactic(auto)]

pub mod bursts;
pub mod record;
pub mod shifting;
