//! What a replica has processed, read as its past: which values changed at which positions, and the value of a key as
//! the writer of a block saw it.
//! docs/GLOSSARY.md explains the words of its contracts.
#![tactic(auto)]

mod below;
mod laws;
mod passing;
mod past;
mod reads;
mod telling;

pub use below::value_below;
pub use laws::{changes_are_the_feed, founds_are_one, pasts_stay_fit};
pub use passing::pass_new;
pub use past::Past;
pub use telling::changes;
