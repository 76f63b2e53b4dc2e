//! The audit and the sweep of a replica that does not run, over its tables as plain rows. An audit tells whether they are
//! sound, or else the first place where they are not; a sweep removes the blocks that are stored and not processed. Both
//! stand over any such tables; those of a test are rows in memory, no keeper has the calls and no command asks for them yet.
//! docs/GLOSSARY.md explains the words of its contracts.
#![tactic(auto)]

mod auditing;
mod blocks;
mod calls;
mod comparing;
mod found;
mod laws;
mod places;
mod plain;
mod sorting;
mod sweeping;
mod values;
mod verdict;

pub use auditing::audit;
pub use calls::{audit_at, sweep_at};
pub use laws::{sound_is_exact, sweep_keeps_processed, sweep_leaves_the_rest};
pub use plain::PlainTables;
pub use sweeping::sweep;
pub use verdict::{Place, Verdict};
