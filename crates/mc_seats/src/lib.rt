//! The replicas of a world in their seats, with their desks: what a call of one of them does there, and how a world begins
//! and ends. docs/GLOSSARY.md explains the words of its contracts.
#![tactic(auto)]

mod bag;
mod calls;
mod entry;
mod error;
mod files;
mod jobs;
mod links;
mod opening;
mod parting;
mod pasts;
mod peers;
mod replies;
mod seat;
mod seats;
mod sums;
mod world;

pub use bag::Bag;
pub use calls::{call_at, cast_at, hear_at, open_at, plant_at, state_at, stop_at};
pub use entry::LineEntry;
pub use error::ActError;
pub use files::{export_at, import_at};
pub use jobs::{begin_at, deliver_at, give_back_at};
pub use links::{Link, set_link};
pub use pasts::{forget, new_pasts};
pub use peers::{find_among, is_peer, keeper_in};
pub use seat::{Held, Idle, Seat};
pub use seats::{put_at, take_at};
pub use sums::recount;
pub use world::{NoWorld, Part, World};
