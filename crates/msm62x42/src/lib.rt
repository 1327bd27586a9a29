// The 62X42: a clock part with four data lines and sixteen registers over the digit map.
#![tactic(auto)]

pub mod calls;
pub mod control;
pub mod part;
