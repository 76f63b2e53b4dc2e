//! What is new to a face: the block at a place in the order of processing, and all that was processed since a face was
//! brought up last, with what became of the keys that it names.
//! docs/GLOSSARY.md explains the words of its contracts.
#![tactic(auto)]

mod blocks;
mod keys;
mod news;
mod values;

pub use blocks::block_at;
pub use news::catch_up;
