// What the calls of the traits promise of a 62X42, and tests: what a host that is written for the chip does and sees, and runs that no single contract speaks of.
#![tactic(auto)]

#[cfg(test)]
mod carry_tests;
#[cfg(test)]
mod date_tests;
#[cfg(test)]
mod hold_tests;
#[cfg(test)]
mod host;
#[cfg(test)]
mod host_tests;
#[cfg(test)]
mod hour_tests;
#[cfg(test)]
mod list_tests;
pub mod promises;
#[cfg(test)]
mod refusal_tests;
