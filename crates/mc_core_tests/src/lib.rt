//! Tests of one replica over keepers in memory: what it hears, fetches, takes in together, repairs, migrates and refuses,
//! and which blocks give keys their values. Tests above share the replicas that run and the chain that they hear of.
#![tactic(auto)]

#[cfg(test)]
mod inboxes;
#[cfg(test)]
mod migrations;
#[cfg(test)]
mod old;
#[cfg(test)]
mod refusals;
#[cfg(test)]
mod replicas;
mod running;
#[cfg(test)]
mod winners;

pub use running::{
    Chain, fetches, found_for, has_processed, hears, last_alone, link, make_chain, opened,
};
