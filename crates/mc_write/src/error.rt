// Why a delete makes no deltas.
use mc_keep::KeepError;
use std::alloc::AllocError;
use thiserror::Error;

/// Why a delete makes no deltas.
#[derive(Clone, Copy, Debug, PartialEq, Eq, Error)]
pub enum WriteError {
    /// The first block has more than 1,048,576 bytes with one tombstone already; `len` is their number, or `u64::MAX`
    /// where there are more.
    #[error("the block has {len} bytes")]
    BlockTooLarge {
        /// The number of bytes.
        len: u64,
    },
    /// The priority of a block would pass `u64::MAX`.
    #[error("no priority is left")]
    PriorityFull,
    /// The keeper failed, and counted it.
    #[error("the keeper failed")]
    Failed,
    /// Want of memory.
    #[error("out of memory")]
    Memory,
}

impl From<KeepError> for WriteError {
    ghost use Rattle.mc_write.specs.Refusals.{IsKeepers};

    ghost from_gives = { IsKeepers };

    fn from(error: KeepError) -> WriteError {
        match error {
            KeepError::Failed => WriteError::Failed,
            KeepError::Memory => WriteError::Memory,
        }
    }
}

impl From<AllocError> for WriteError {
    ghost use Rattle.std.specs.Prelude.{◌≡◌};
    ghost use Rattle.mc_write.specs.declared.error.WriteError.{WriteError};

    ghost from_gives = { λ _ e. e ≡ WriteError.Memory };

    fn from(_error: AllocError) -> WriteError {
        WriteError::Memory
    }
}
