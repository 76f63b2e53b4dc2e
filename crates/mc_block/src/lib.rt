//! Blocks: read from their bytes under a content identifier, and made of links and a delta.
#![tactic(auto)]

mod fault;
mod laws;
mod limits;
mod read;
mod verified;
mod write;

pub use fault::{BlockError, Damage};
pub use laws::written_blocks_are_good;
pub use read::{links_of, read_block, read_found};
pub use verified::{Verified, VerifyRefused, verify, verify_found};
pub use write::{Made, write_block};
