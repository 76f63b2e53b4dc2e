//! The commands of a world that need no thread, each in the world, and the record of a line.
//! docs/GLOSSARY.md explains the words of its contracts.
#![tactic(auto)]

mod asks;
mod files;
mod messages;
mod places;
mod record;
mod sames;
mod stepping;

pub use asks::is_there;
pub use files::{export_in, import_in, load_in};
pub use messages::{cast_in, hear_in, send_in};
pub use places::{arm_in, call_in, link_in, open_in, plant_in, state_in, stop_in};
pub use record::{Counts, counts_of, record_line};
pub use sames::same_in;
pub use stepping::step_in;
