// Why a text is no delta.
ghost use Rattle.std.specs.Prelude.{◌≡◌};
ghost use Rattle.mc_wire.specs.declared.fault.WireFaultAt.{WireFaultAt as Told};
ghost use Rattle.mc_delta.specs.declared.fault.DeltaError.TheVariants.{Memory, Fault};
ghost use Rattle.mc_delta.specs.Faults.{of_wire};

use mc_wire::{WireFault, WireFaultAt};
use std::alloc::{AllocError, AllocFailed};
use thiserror::Error;

/// What is wrong with a delta.
#[derive(Clone, Copy, Debug, PartialEq, Eq, Error)]
pub enum DeltaFaultKind {
    /// A field can't be read.
    #[error("{fault}")]
    Wire {
        /// Why it can't.
        fault: WireFault,
    },
    /// A key or an id isn't UTF-8.
    #[error("a key or an id is no text")]
    TextFault,
}

/// A fault of a delta, with the offset in the delta of the key of the innermost field at fault.
#[derive(Clone, Copy, Debug, PartialEq, Eq, Error)]
#[error("{kind} at {at}")]
pub struct DeltaFault {
    /// What is wrong.
    pub kind: DeltaFaultKind,
    /// The offset, counted in bytes from 0.
    pub at: usize,
}

/// Why a delta wasn't read.
#[derive(Clone, Copy, Debug, PartialEq, Eq, Error)]
pub enum DeltaError {
    /// Want of memory, which says nothing of the text.
    #[error("out of memory")]
    Memory,
    /// The text is no delta, and this is its first fault.
    #[error("{0}")]
    Fault(DeltaFault),
}

impl From<AllocError> for DeltaError {
    ghost from_gives = { λ _ e. e ≡ Memory };

    fn from(_: AllocError) -> Self {
        DeltaError::Memory
    }
}

impl From<DeltaFault> for DeltaError {
    ghost from_gives = { λ fault e. e ≡ Fault fault };

    fn from(fault: DeltaFault) -> Self {
        DeltaError::Fault(fault)
    }
}

impl From<WireFaultAt> for DeltaFault {
    ghost from_gives = { λ wire fault. fault ≡ of_wire wire };

    fn from(fault: WireFaultAt) -> Self {
        DeltaFault {
            kind: DeltaFaultKind::Wire { fault: fault.kind },
            at: fault.at,
        }
    }
}

impl From<WireFaultAt> for DeltaError {
    ghost from_gives = { λ wire e. e ≡ Fault (of_wire wire) };

    fn from(fault: WireFaultAt) -> Self {
        DeltaError::Fault(DeltaFault::from(fault))
    }
}
