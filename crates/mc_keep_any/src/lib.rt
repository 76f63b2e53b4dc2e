//! A keeper of one of two kinds, and who makes the keepers of the program: in memory, or in SQLite files.
//! docs/GLOSSARY.md explains the words of its contracts.
#![tactic(auto)]

mod any;
mod desk;
mod real;

pub use any::AnyKeeper;
pub use desk::AnyDesk;
pub use real::RealKeepers;
