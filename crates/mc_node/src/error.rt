// Why a call that reads gave no answer.
use mc_core::CoreError;
use thiserror::Error;

/// Why a read that doesn't wait gave no answer.
#[derive(Clone, Copy, Debug, PartialEq, Eq, Error)]
pub enum TryError {
    /// The replica refused, or failed.
    #[error("{0}")]
    Core(CoreError),
    /// The turn is held. The call has made one exchange and nothing else.
    #[error("the turn is held, its word is {word}")]
    Busy {
        /// What the exchange found.
        word: u64,
    },
}

/// Why a feed wasn't brought up to a node.
#[derive(Clone, Copy, Debug, PartialEq, Eq, Error)]
pub enum NodeFeedError {
    /// The replica had stopped.
    #[error("the replica has stopped")]
    Stopped,
    /// The keeper failed, and the replica has stopped.
    #[error("the keeper failed")]
    KeeperFault,
    /// The feed was spent: it had refused a block for want of memory.
    #[error("an earlier block was refused")]
    Spent,
    /// Want of memory. Where the feed refused a block it is spent, and its hook may have taken some first events of the
    /// block.
    #[error("out of memory")]
    Memory,
}
