//! Tests of the keeper over SQLite by itself: tables that a program of before wrote and that are migrated, files of another
//! layout, and disks that stop at each of their calls. Tests above share what makes and changes the tables.
#![tactic(auto)]

mod changing;
#[cfg(test)]
mod layouts;
mod migrated;
#[cfg(test)]
mod migrations;
#[cfg(test)]
mod stops;
mod tables;

pub use changing::change_file;
pub use migrated::migrated_twice;
pub use tables::{LAYOUT_ONE, after, changed, in_memory, number};
