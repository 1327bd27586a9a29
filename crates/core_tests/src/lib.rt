// What the calls of the traits promise of a core, and tests of it over the byte map: what no contract says of one call alone is tried here on runs.
#![tactic(auto)]

#[cfg(test)]
mod cores;
#[cfg(test)]
mod drift_tests;
#[cfg(test)]
mod hold_tests;
#[cfg(test)]
mod hour_tests;
#[cfg(test)]
mod model;
#[cfg(test)]
mod model_tests;
pub mod promises;
#[cfg(test)]
mod refusal_tests;
