// A block to be fetched, and what became of it.
use mc_base::{Bytes, Cid};

/// A block to be fetched, which is in flight until it is delivered or given back.
#[derive(Debug, Drop)]
pub struct Job {
    /// The block's identifier.
    pub cid: Cid,
    /// The bytes that the replica itself has stored under it, where their SHA-256 is the identifier's digest. They go
    /// before all other offers.
    pub own: Option<Bytes>,
}

/// What the offers for a block came to.
#[derive(Debug, Drop)]
pub enum Found {
    /// The bytes of the first offer whose SHA-256 is the identifier's digest.
    Bytes(Bytes),
    /// No offer had this digest.
    Missing,
}

/// What became of a job that was delivered.
#[derive(Clone, Copy, Debug, PartialEq, Eq)]
pub enum Delivered {
    /// The block was processed.
    Processed {
        /// Its place in the order of processing, counted from 0.
        position: u64,
    },
    /// No offer had the digest: the block waits among the missing ones.
    Missing,
    /// The bytes are no block: it waits among the bad ones.
    Bad {
        /// The number of the first damage, from 1 to 5.
        damage: u8,
    },
    /// The block was no longer in flight. Nothing changed.
    Known,
}
