//! What a storm is: writers that put and get beside one another on one replica, and what comes of it.
//! docs/GLOSSARY.md explains the words of its contracts.
#![tactic(auto)]

mod outcome;

pub use outcome::{StormError, Stormed};
