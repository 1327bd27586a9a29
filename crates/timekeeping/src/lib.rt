// Lists of calls on one core, and the law that every such list keeps.
#![tactic(auto)]

pub mod call;
pub mod example;
pub mod work;
