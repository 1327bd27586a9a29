// Worked examples of transfers: each is proved safe, and then run.
#![tactic(auto)]

#[cfg(test)]
mod tests;
