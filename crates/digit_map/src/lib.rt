// The register map of thirteen decimal digits, over one century.
#![tactic(auto)]

pub mod cells;
pub mod map;
