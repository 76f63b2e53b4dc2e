// Why a text isn't that of an identifier.
ghost use Rattle.std.specs.Prelude.{◌≡◌};
ghost use Rattle.mc_cidtext.specs.declared.fault.CidTextError.TheVariants.{Fault, Memory};

use mc_base32::Base32Fault;
use std::alloc::AllocError;
use thiserror::Error;

/// Why a text isn't that of an identifier. The faults are looked for in this order.
#[derive(Clone, Copy, Debug, PartialEq, Eq, Error)]
pub enum CidTextFault {
    /// The text doesn't begin with `b`.
    #[error("the text doesn't begin with `b`")]
    Prefix,
    /// What follows the `b` isn't lower-case base32. Places are counted from the byte after the `b`.
    #[error("after the `b`: {fault}")]
    Base32 { fault: Base32Fault },
    /// The bytes aren't an identifier of version 1 with the codec dag-pb and the hash SHA-256.
    #[error("the bytes aren't an identifier of this kind")]
    NotProfile,
}

/// Why the text of an identifier wasn't read.
#[derive(Clone, Copy, Debug, PartialEq, Eq, Error)]
pub enum CidTextError {
    /// There was no memory for the bytes.
    #[error("out of memory")]
    Memory,
    /// The text isn't that of an identifier.
    #[error("{0}")]
    Fault(CidTextFault),
}

impl From<AllocError> for CidTextError {
    ghost from_gives = { λ _ e. e ≡ Memory };

    fn from(_: AllocError) -> Self {
        CidTextError::Memory
    }
}

impl From<CidTextFault> for CidTextError {
    ghost from_gives = { λ fault e. e ≡ Fault fault };

    fn from(fault: CidTextFault) -> Self {
        CidTextError::Fault(fault)
    }
}
