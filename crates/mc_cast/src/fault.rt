// Why bytes aren't a broadcast.
ghost use Rattle.std.specs.Prelude.{◌≡◌};
ghost use Rattle.mc_cast.specs.declared.fault.CastError.TheVariants.{Fault, Memory};
ghost use Rattle.mc_cast.specs.declared.fault.CastFault.TheVariants.{Wire};

use mc_wire::{WireFault, WireFaultAt};
use std::alloc::AllocError;
use thiserror::Error;

/// Why bytes aren't a broadcast. The whole message is read by the wire format first.
#[derive(Clone, Copy, Debug, PartialEq, Eq, Error)]
pub enum CastFault {
    /// The message or a head isn't made of fields. A head is looked into when it is met.
    #[error("{fault}")]
    Wire { fault: WireFault },
    /// The head at this place, counted from 0, is the first without a cid of version 1 with the codec dag-pb and the
    /// hash SHA-256.
    #[error("head {index} names no identifier of this kind")]
    BadCid { index: u64 },
}

/// Why a broadcast wasn't read.
#[derive(Clone, Copy, Debug, PartialEq, Eq, Error)]
pub enum CastError {
    /// There was no memory for the heads.
    #[error("out of memory")]
    Memory,
    /// The bytes aren't a broadcast.
    #[error("{0}")]
    Fault(CastFault),
}

impl From<AllocError> for CastError {
    ghost from_gives = { λ _ e. e ≡ Memory };

    fn from(_: AllocError) -> Self {
        CastError::Memory
    }
}

impl From<WireFaultAt> for CastError {
    ghost from_gives = { λ fault e. e ≡ Fault (Wire fault.kind) };

    fn from(fault: WireFaultAt) -> Self {
        CastError::Fault(CastFault::Wire { fault: fault.kind })
    }
}
