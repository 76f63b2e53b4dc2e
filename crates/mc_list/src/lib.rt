//! Four linked lists over raw nodes that the container owns. An entry moves between them by links alone.
#![tactic(auto)]

mod cells;
mod freeing;
mod growth;
mod lists;
mod moves;
mod node;
mod parts;
mod web;

pub use lists::{Lists, Place};
