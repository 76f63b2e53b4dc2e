//! What a call of a replica will commit, planned over its keeper with all memory taken: made blocks, puts, deletes,
//! batches, found blocks, and what is wanted then. What a call does is a list of events, also where the keeper fails.
//! docs/GLOSSARY.md explains the words of its contracts.
#![tactic(auto)]

mod batches;
mod counting;
mod deletes;
mod deliveries;
mod drains;
mod error;
mod handed;
mod hears;
mod jobs;
mod laws;
mod made;
mod puts;
mod sound;
mod uptakes;
mod walks;
mod wanting;

pub use batches::plan_batch;
pub use counting::{Numbers, numbers_after, numbers_of};
pub use deletes::{Deleted, MadeBlock, make_delete, plan_one};
pub use deliveries::{Arrival, plan_arrival};
pub use drains::calls_on_jobs_drain;
pub use error::{CoreError, stops};
pub use handed::{ProcessChanges, StoreChanges};
pub use hears::{Heard, cast_heads, hear_new, read_new};
pub use jobs::own_bytes;
pub use laws::{clean_replicas_are_reached, replicas_only_grow, written_blocks_stand};
pub use made::{Planned, Written};
pub use puts::{check_key, check_value, plan_put};
pub use sound::is_sound;
pub use uptakes::{After, Uptake};
pub use walks::{Settled, WalkStep, clearing, clears, settled_with, walk_over, want_links_at};
pub use wanting::want_links;
