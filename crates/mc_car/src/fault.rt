// Why bytes aren't a CARv1 file.
ghost use Rattle.std.specs.Prelude.{◌≡◌};
ghost use Rattle.mc_car.specs.CarRead.{fault_number};
ghost use Rattle.mc_car.specs.declared.fault.CarError.TheVariants.{Fault, Memory};

use crate::car::Section;
use mc_base::Cid;
use std::alloc::{AllocError, AllocFailed};
use thiserror::Error;

/// What is wrong with a piece of a file, which is a varint of a length and as many bytes.
#[derive(Clone, Copy, Debug, PartialEq, Eq, Error)]
pub enum CarFaultKind {
    /// No varint stands at its front. Empty bytes have this fault at 0.
    #[error("no varint stands")]
    BadVarint,
    /// The input ends within it.
    #[error("the input ends within the piece")]
    CutShort,
    /// It is the first piece, and no header of version 1 with at most 255 roots of this profile.
    #[error("no header stands")]
    NoHeader,
    /// It is a section, and begins with no content identifier of this profile.
    #[error("a section without an identifier stands")]
    NoCid,
    /// It is a section, and its block has another digest than its identifier.
    #[error("a block of another digest stands")]
    WrongDigest,
}

/// Why bytes aren't a CARv1 file of this profile: the first fault, from left to right.
#[derive(Clone, Copy, Debug, PartialEq, Eq, Error)]
#[error("{kind} at {at}")]
pub struct CarFault {
    /// What is wrong.
    pub kind: CarFaultKind,
    /// The offset of the piece's varint in the file.
    pub at: u64,
}

impl CarFault {
    /// The number of the kind, 1 to 5 in their order.
    pub fn number(self) -> u8
        ensures { result ≡ fault_number self.kind }
    {
        match self.kind {
            CarFaultKind::BadVarint => 1,
            CarFaultKind::CutShort => 2,
            CarFaultKind::NoHeader => 3,
            CarFaultKind::NoCid => 4,
            CarFaultKind::WrongDigest => 5,
        }
    }
}

/// Why no CARv1 file was read.
#[derive(Clone, Copy, Debug, PartialEq, Eq, Error)]
pub enum CarError {
    /// There was no memory for the roots and blocks.
    #[error("out of memory")]
    Memory,
    /// The bytes aren't such a file.
    #[error("{0}")]
    Fault(CarFault),
}

impl From<AllocError> for CarError {
    ghost from_gives = { λ _ e. e ≡ Memory };

    fn from(_: AllocError) -> Self {
        CarError::Memory
    }
}

impl From<AllocFailed<Cid>> for CarError {
    ghost from_gives = { λ _ e. e ≡ Memory };

    fn from(_: AllocFailed<Cid>) -> Self {
        CarError::Memory
    }
}

impl From<AllocFailed<Section>> for CarError {
    ghost from_gives = { λ _ e. e ≡ Memory };

    fn from(_: AllocFailed<Section>) -> Self {
        CarError::Memory
    }
}
