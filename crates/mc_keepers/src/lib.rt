//! Who makes the keepers of a run, and takes them back.
//! docs/GLOSSARY.md explains the words of its contracts.
#![tactic(auto)]

mod keepers;

pub use keepers::{KeeperPlan, Keepers};
