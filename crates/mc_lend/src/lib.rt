//! The desks of replicas, lent to those who fetch from them: each of so many fetches reads every peer by a desk of its
//! own, and all desks come back to where they were.
//! docs/GLOSSARY.md explains the words of its contracts.
#![tactic(auto)]

mod fetches;
mod lending;
mod lent;
mod rows;
mod site;

pub use lent::{Lent, lend, take_back};
pub use site::Site;
