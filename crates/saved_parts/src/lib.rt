// Parts as flat records that a caller owns, copies and keeps: how a part is saved in one and restored from it,
// and the calls of a part as calls on its record.
#![tactic(auto)]

pub mod alarm;
pub mod answer;
pub mod calls348;
pub mod calls62;
pub mod file;
pub mod flags;
pub mod part348;
pub mod part62;
pub mod running;
pub mod transfer;
