//! Reads of a replica over the rows of its keeper: the value of a key, whether it has one, and the keys under a prefix.
//! docs/GLOSSARY.md explains the words of its contracts.
#![tactic(auto)]

mod ahead;
mod lookup;
mod pair;
mod place;
mod range;

pub use lookup::{get, has};
pub use pair::Pair;
pub use range::query;
