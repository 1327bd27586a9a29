// Tests of host sessions: what a host does and sees over whole sessions, and what raw levels left on the wires do to them.
#![tactic(auto)]

#[cfg(test)]
mod burst_tests;
#[cfg(test)]
mod carry_tests;
#[cfg(test)]
mod flag_tests;
#[cfg(test)]
mod host;
#[cfg(test)]
mod opening_tests;
#[cfg(test)]
mod refusal_tests;
