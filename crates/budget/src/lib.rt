//! The budget enforcer: counts what is observed against limits, and remembers the first breach.
#![tactic(auto)]

mod anchors;
pub mod breach;
mod containers;
mod counting;
pub mod enforcer;
pub mod limits;
mod merging;
pub mod observed;
pub mod policy;
