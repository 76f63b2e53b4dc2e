// What a storm came to.
use thiserror::Error;

/// What a storm came to.
#[derive(Clone, Copy, Debug, PartialEq, Eq)]
pub struct Stormed {
    /// How many puts made a block.
    pub made: u64,
    /// How many of these had a get after them that gave the bytes of the put.
    pub same: u64,
}

/// Why a storm gave no answer.
#[derive(Clone, Copy, Debug, PartialEq, Eq, Error)]
pub enum StormError {
    /// The keeper failed, and the replica has stopped.
    #[error("a keeper failed")]
    KeeperFault,
    /// The replica had stopped.
    #[error("the replica has stopped")]
    Stopped,
    /// Want of memory. The puts that were made stay.
    #[error("out of memory")]
    Memory,
}
