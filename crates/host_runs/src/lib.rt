// Lists of calls on a 348A with host sessions among them, and the law of timekeeping over them.
#![tactic(auto)]

pub mod call;
pub mod session;
pub mod work;
