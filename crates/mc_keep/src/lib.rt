//! Keepers: where the blocks of a replica and the rows made of them are kept.
//! docs/GLOSSARY.md explains the words of its contracts.
#![tactic(auto)]

mod changes;
mod error;
mod fuse;
mod fused;
mod keeper;
mod laws;
mod laying;
mod rows;

pub use changes::{Changes, ValueChange, WinnerChange};
pub use error::KeepError;
pub use fuse::Fuse;
pub use fused::Fused;
pub use keeper::Keeper;
pub use laws::{changes_fit, commits_are_events, fuses_fire_once, migrations_fit, ties_are_equal};
pub use laying::lay;
pub use mc_model::{Layout, Stored};
pub use rows::{ElementRow, HeadRow, RankedValue, Summary, TombRow, ValueRow};
