// What a call of a replica answers where it does nothing, or not all.
ghost use Rattle.std.specs.Prelude.{◌≡◌, false};
ghost use Rattle.mc_plan.specs.Refusals.{stops};

use mc_base::{Cid, Failed};
use mc_cast::CastFault;
use mc_keep::KeepError;
use mc_key::KeyFault;
use mc_write::WriteError;
use std::alloc::AllocError;
use thiserror::Error;

/// Why a call of a replica did nothing, or not all. After `KeeperFault` the replica has stopped; after every other one
/// it is as it was, unless the call says more.
#[derive(Clone, Copy, Debug, PartialEq, Eq, Error)]
pub enum CoreError {
    /// The key breaks the key rule, by this fault first.
    #[error("{fault}")]
    BadKey {
        /// The first fault of the key.
        fault: KeyFault,
    },
    /// The value has more than 262,144 bytes.
    #[error("the value is too long")]
    ValueTooLong,
    /// The first block that would be made has more than 1,048,576 bytes.
    #[error("a block of {len} bytes is too large")]
    BlockTooLarge {
        /// The number of its bytes, or `u64::MAX` where there are more.
        len: u64,
    },
    /// The priority of a block that would be made would pass `u64::MAX`.
    #[error("no priority is left")]
    PriorityFull,
    /// A block that would be made is processed already, or other bytes are stored under its identifier.
    #[error("a block clashes with another one")]
    Clash {
        /// Its identifier.
        cid: Cid,
    },
    /// The keeper failed in this call, and the replica has stopped.
    #[error("the keeper failed")]
    KeeperFault,
    /// An earlier call answered `KeeperFault`.
    #[error("the replica has stopped")]
    Stopped,
    /// The message is no broadcast.
    #[error("{fault}")]
    BadCast {
        /// Its first wire fault, and else the first head that names no identifier.
        fault: CastFault,
    },
    /// No batch is open.
    #[error("no batch is open")]
    NoBatch,
    /// A batch is open.
    #[error("a batch is open")]
    BatchOpen,
    /// Want of memory.
    #[error("out of memory")]
    Memory,
}

impl From<Failed> for CoreError {
    ghost use Rattle.std.specs.Prelude.{◌≡◌};
    ghost use Rattle.mc_plan.specs.declared.error.CoreError.{CoreError};

    ghost from_gives = { λ _ e. e ≡ CoreError.KeeperFault };

    fn from(_failed: Failed) -> CoreError {
        CoreError::KeeperFault
    }
}

impl From<AllocError> for CoreError {
    ghost use Rattle.std.specs.Prelude.{◌≡◌};
    ghost use Rattle.mc_plan.specs.declared.error.CoreError.{CoreError};

    ghost from_gives = { λ _ e. e ≡ CoreError.Memory };

    fn from(_error: AllocError) -> CoreError {
        CoreError::Memory
    }
}

impl From<KeepError> for CoreError {
    ghost use Rattle.mc_plan.specs.Refusals.{OfKeeper};

    ghost from_gives = { OfKeeper };

    fn from(error: KeepError) -> CoreError {
        match error {
            KeepError::Failed => CoreError::KeeperFault,
            KeepError::Memory => CoreError::Memory,
        }
    }
}

impl From<WriteError> for CoreError {
    ghost use Rattle.mc_plan.specs.Refusals.{OfDelete};

    ghost from_gives = { OfDelete };

    fn from(error: WriteError) -> CoreError {
        match error {
            WriteError::BlockTooLarge { len } => CoreError::BlockTooLarge { len },
            WriteError::PriorityFull => CoreError::PriorityFull,
            WriteError::Failed => CoreError::KeeperFault,
            WriteError::Memory => CoreError::Memory,
        }
    }
}

/// Whether a replica stops with this error.
pub fn stops(error: CoreError) -> bool
    ensures { result ≡ stops error false }
{
    match error {
        CoreError::KeeperFault => true,
        _ => false,
    }
}
