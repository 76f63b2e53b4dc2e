//! A replica pulls what it wants from its peers, with workers beside one another: desks of each are lent for the time,
//! and come back to their places. docs/GLOSSARY.md explains the words of its contracts.
#![tactic(auto)]

mod answers;
pub mod crew;
mod repairing;
mod shows;
mod working;

pub use repairing::repair;
pub use working::work;
