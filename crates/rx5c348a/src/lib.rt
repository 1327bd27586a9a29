// The 348A: the register file on four wires, CE, SCLK, SI and SO, with its interrupt line.
#![tactic(auto)]

pub mod calls;
pub mod part;
pub mod pins;
