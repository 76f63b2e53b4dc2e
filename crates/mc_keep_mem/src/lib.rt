//! A keeper in memory, with the faults that are planned for it, and who makes such keepers.
//! docs/GLOSSARY.md explains the words of its contracts.
#![tactic(auto)]

mod keeper;
mod keepers;
mod plan;

pub use keeper::MemKeeper;
pub use keepers::MemKeepers;
pub use plan::{FaultPlan, MemDesk};
