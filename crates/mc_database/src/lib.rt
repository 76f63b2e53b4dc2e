//! The tables of a keeper in a SQLite database: rows that are read, changes that are written in one transaction, and how
//! many rows there are.
#![tactic(auto)]

mod blank;
mod cause;
mod cells;
mod changing;
mod counts;
mod database;
mod log;
mod opening;
mod reading;
mod tables;

pub use cause::FileCause;
pub use changing::counts_after;
pub use counts::Counts;
pub use database::{Database, FileDatabase, Work};
pub use opening::{Start, opened};
pub use reading::{
    at, block, has, heads, hidden, hides, key_from, linked, live_elements, position, stored, value,
    values_from, winner,
};
