//! The wanted set: the blocks that a replica has heard of and not processed, in four lists.
//! docs/GLOSSARY.md explains the words of its contracts.
#![tactic(auto)]

mod moves;
mod part;
mod places;
mod queue;

pub use queue::{Counts, Queue};
