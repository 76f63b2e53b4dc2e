//! One replica that threads share, beside a log of what was done with it.
//! docs/GLOSSARY.md explains the words of its contracts.
#![tactic(auto)]

mod entry;
mod error;
mod hired;
mod node;
mod note;
mod stored;

pub use entry::Entry;
pub use error::{NodeFeedError, TryError};
pub use hired::Hired;
pub use node::{Node, NodeGlimpse, NodeRefused, NodeSeat, Seen};
pub use note::Note;
pub use stored::Stored;
