//! The tables of a replica that does not run as plain rows, right or not, with one call that reads a row and one that
//! removes a block. What these give and leave is stated over any such tables, and the rows that a keeper owes for what it
//! tells are defined here. No keeper has the calls yet; plain rows in memory have them, in `mc_audit`.
//! docs/GLOSSARY.md explains the words of its contracts.
#![tactic(auto)]

mod keeping;
mod raw;

pub use keeping::RawKeeper;
pub use raw::{RawTables, Row};
