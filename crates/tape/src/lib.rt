// The bench tape: records read from bytes and played on a 348A.
#![tactic(auto)]

pub mod fault;
pub mod play;
pub mod record;
