// The calls of a 62X42 as lists have them, and the law of timekeeping that every such list keeps.
#![tactic(auto)]

pub mod call;
pub mod start;
