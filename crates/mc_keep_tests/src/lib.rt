//! Tests of the layers between the formats and a replica: the keeper in memory with its planned faults, rows, front, reads,
//! made deltas, commits of groups of blocks, commits that a fuse lets fail, and fetches from peers. Tests above share what
//! tries something on a keeper, the blocks of the examples, and what a keeper shows of them.
#![tactic(auto)]

mod blocks;
#[cfg(test)]
mod commits;
#[cfg(test)]
mod deltas;
#[cfg(test)]
mod fetches;
#[cfg(test)]
mod front;
#[cfg(test)]
mod fuses;
#[cfg(test)]
mod groups;
mod hand_made;
#[cfg(test)]
mod makers;
#[cfg(test)]
mod memory;
mod orders;
#[cfg(test)]
mod queries;
#[cfg(test)]
mod rows;
mod shown;
mod trials;

pub use blocks::{element, no_delta, take_up};
pub use hand_made::{HandMade, HandMadeDesk};
pub use orders::ORDERS;
pub use shown::has_value;
pub use trials::{Trial, empty, passes, passes_over};
