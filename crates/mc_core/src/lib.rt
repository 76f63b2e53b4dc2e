//! One replica over its keeper: what it does is a list of events, also where the keeper fails.
//! docs/GLOSSARY.md explains the words of its contracts.
#![tactic(auto)]

mod arming;
mod batches;
mod blocks;
mod commits;
mod deletes;
mod deliveries;
mod desks;
mod groups;
mod hears;
mod inboxes;
mod jobs;
mod reads;
mod replica;
mod report;
mod storing;
mod walks;
mod writes;

pub use mc_group::{Grouped, calls_on_an_inbox_drain};
pub use mc_plan::{
    CoreError, Deleted, Heard, Settled, WalkStep, Written, calls_on_jobs_drain,
    clean_replicas_are_reached, replicas_only_grow, written_blocks_stand,
};
pub use mc_queue::Counts;
pub use replica::{OpenCause, OpenError, Replica};
pub use report::Report;
