// Tests of parts in records: which records calls leave, and which are none of a part.
#![tactic(auto)]

#[cfg(test)]
mod record_tests;
