// The clock core over any register map: seconds of pulses, trim, hold and release.
#![tactic(auto)]

pub mod boundary;
pub mod cells;
pub mod clock;
pub mod holding;
pub mod making;
pub mod seconds;
pub mod setting;
pub mod settings;
