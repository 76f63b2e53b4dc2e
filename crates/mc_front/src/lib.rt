//! The front of the processed blocks, as a commit changes it: heads, link rows, marks and the dirty mark.
//! docs/GLOSSARY.md explains the words of its contracts.
#![tactic(auto, using(mc_keep::proofs::Frames::reads_none))]

mod adding;
mod distinct;
mod front;
mod heads;
mod links;
mod mark;

pub use front::front_changes;
