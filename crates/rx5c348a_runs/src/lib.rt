// Lists of calls on a 348A, and the law of timekeeping over them.
#![tactic(auto)]

pub mod call;
pub mod example;
pub mod sights;
pub mod start;
