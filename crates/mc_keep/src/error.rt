// Why a call of a keeper gives no answer.
use mc_base::Failed;
use std::alloc::AllocError;
use thiserror::Error;

/// Why a call of a keeper gives no answer.
#[derive(Clone, Copy, Debug, PartialEq, Eq, Error)]
pub enum KeepError {
    /// The keeper failed, and counted it.
    #[error("the keeper failed")]
    Failed,
    /// Want of memory.
    #[error("out of memory")]
    Memory,
}

impl From<Failed> for KeepError {
    ghost use Rattle.std.specs.Prelude.{◌≡◌};
    ghost use Rattle.mc_keep.specs.declared.error.KeepError.{KeepError};

    ghost from_gives = { λ _ e. e ≡ KeepError.Failed };

    fn from(_failed: Failed) -> KeepError {
        KeepError::Failed
    }
}

impl From<AllocError> for KeepError {
    ghost use Rattle.std.specs.Prelude.{◌≡◌};
    ghost use Rattle.mc_keep.specs.declared.error.KeepError.{KeepError};

    ghost from_gives = { λ _ e. e ≡ KeepError.Memory };

    fn from(_error: AllocError) -> KeepError {
        KeepError::Memory
    }
}
