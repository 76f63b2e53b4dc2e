//! Where the blocks that a replica misses are fetched from: the places that offer bytes for them, the first offer that
//! decides, and the jobs that ask for them.
//! docs/GLOSSARY.md explains the words of its contracts.
#![tactic(auto)]

mod error;
mod fetch;
mod first;
mod job;
mod laws;
mod naming;
mod peers;
mod plants;

pub use error::FetchError;
pub use fetch::Fetch;
pub use first::first_match;
pub use job::{Delivered, Found, Job};
pub use laws::{peers_offer_in_order, plants_replace};
pub use naming::Naming;
pub use peers::{PeerFetch, PeerView};
pub use plants::{Planted, Plants};
