// Tests of the 348A: a host on its four wires, bit by bit, and what it sees; and what the calls of the traits promise of it.
#![tactic(auto)]

#[cfg(test)]
mod alarm_tests;
#[cfg(test)]
mod host;
pub mod promises;
#[cfg(test)]
mod refusal_tests;
#[cfg(test)]
mod register_tests;
#[cfg(test)]
mod transfer_tests;
#[cfg(test)]
mod wire_tests;
