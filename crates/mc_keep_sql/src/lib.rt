//! The keeper whose tables stand in a SQLite file. It does not tell what they hold.
//! docs/GLOSSARY.md explains the words of its contracts.
#![tactic(auto)]

mod desk;
mod fault;
mod file;
mod keeper;
mod name;
mod sums;

pub use desk::SqlDesk;
pub use fault::{FileFault, OpenFault};
pub use file::FileKeeper;
pub use keeper::SqlKeeper;
pub use sums::add_faults;
