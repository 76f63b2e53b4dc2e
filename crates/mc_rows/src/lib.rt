//! The element, tombstone and value rows by which a keeper takes up further blocks.
//! docs/GLOSSARY.md explains the words of its contracts.
#![tactic(auto, using(mc_keep::proofs::Frames::reads_none))]

mod best;
mod elements;
mod keys;
mod live;
mod merging;
mod parts;
mod search;
mod tombs;
mod values;
mod winner;

pub use merging::merge;
pub use winner::find_winner;
