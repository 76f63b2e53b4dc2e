//! Blocks of an inbox that a replica takes in together: which of them are taken up, planned over its keeper with all memory
//! taken, and what becomes of the rest.
//! docs/GLOSSARY.md explains the words of its contracts.
#![tactic(auto)]

mod drains;
mod gathering;
mod giving;
mod group;
mod grouped;
mod leaving;
mod planning;
mod storing;

pub use drains::calls_on_an_inbox_drain;
pub use gathering::gather;
pub use giving::give_back_all;
pub use group::{Group, Slot, put_back, stores_of};
pub use grouped::Grouped;
pub use leaving::done_all;
pub use planning::{GroupPlan, plan_group};
pub use storing::plan_store;
