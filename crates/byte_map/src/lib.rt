// The register map of seven packed decimal cells, over two centuries.
#![tactic(auto)]

pub mod cells;
pub mod map;
