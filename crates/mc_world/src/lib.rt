//! A world of replicas: commands are done in it one after another, and each leaves an entry of the record.
//! docs/GLOSSARY.md explains the words of its contracts.
#![tactic(auto)]

mod acting;
mod pulling;
mod sites;
mod storming;
mod worked;

pub use acting::act;
pub use mc_seats::{ActError, LineEntry, NoWorld, Part, World, new_pasts};
