// Why a call of a fetch gives no answer.
use mc_keep::KeepError;
use std::alloc::AllocError;
use thiserror::Error;

/// Why a call of a fetch gives no answer.
#[derive(Clone, Copy, Debug, PartialEq, Eq, Error)]
pub enum FetchError {
    /// A place failed, and the fetch counted it.
    #[error("a place that blocks are fetched from failed")]
    Failed,
    /// Want of memory.
    #[error("out of memory")]
    Memory,
}

impl From<AllocError> for FetchError {
    ghost use Rattle.std.specs.Prelude.{◌≡◌};
    ghost use Rattle.mc_fetch.specs.declared.error.FetchError.{FetchError};

    ghost from_gives = { λ _ e. e ≡ FetchError.Memory };

    fn from(_error: AllocError) -> FetchError {
        FetchError::Memory
    }
}

impl From<KeepError> for FetchError {
    ghost use Rattle.std.specs.Prelude.{◌≡◌};
    ghost use Rattle.mc_fetch.specs.Causes.{error_of};

    ghost from_gives = { λ error e. e ≡ error_of error };

    fn from(error: KeepError) -> FetchError {
        match error {
            KeepError::Failed => FetchError::Failed,
            KeepError::Memory => FetchError::Memory,
        }
    }
}
