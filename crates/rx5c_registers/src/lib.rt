// The sixteen registers of the Rx5C parts over the byte map: calendar, trim, two alarms, control and flags.
#![tactic(auto)]

pub mod alarm;
pub mod calls;
pub mod clock;
pub mod file;
pub mod reading;
pub mod writing;
