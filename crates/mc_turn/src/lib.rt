//! A turn lock whose seats know the history: what a seat has seen begins the list of each later value.
//! docs/GLOSSARY.md explains the words of its contracts.
#![tactic(auto)]

mod rule;
mod story;
mod turn;
mod view;

pub use story::Story;
pub use turn::{Busy, Glimpse, Held, Refused, Seat, Turn};
pub use view::View;
