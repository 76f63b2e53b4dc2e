// Why a command was not answered.
use std::alloc::AllocError;
use thiserror::Error;

/// Why a command was not answered.
#[derive(Clone, Copy, Debug, PartialEq, Eq, Error)]
pub enum ActError {
    /// It names a replica or a message that isn't there.
    #[error("no such replica or message")]
    BadLine,
    /// Want of memory.
    #[error("out of memory")]
    Memory,
}

impl From<AllocError> for ActError {
    ghost use Rattle.std.specs.Prelude.{◌≡◌};
    ghost use Rattle.mc_seats.specs.declared.error.ActError.{ActError};

    ghost from_gives = { λ _ e. e ≡ ActError.Memory };

    fn from(_error: AllocError) -> ActError {
        ActError::Memory
    }
}
