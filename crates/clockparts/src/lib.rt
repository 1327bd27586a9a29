// The parts for makers who write in C: clock.h says what each call does.
#![tactic(auto)]

pub mod clock348;
pub mod clock62;
