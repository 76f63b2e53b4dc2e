// Why a text isn't base32.
ghost use Rattle.std.specs.Prelude.{◌≡◌};
ghost use Rattle.mc_base32.specs.declared.fault.Base32Error.TheVariants.{Fault, Memory};

use std::alloc::AllocError;
use thiserror::Error;

/// Why a text isn't base32. The faults are looked for in this order.
#[derive(Clone, Copy, Debug, PartialEq, Eq, Error)]
pub enum Base32Fault {
    /// The byte at this place, counted from 0, is the first that isn't in the alphabet of the case.
    #[error("the byte at {at} is no base32 digit of that case")]
    BadChar { at: u64 },
    /// The length modulo 8 is 1, 3 or 6: no number of bytes has so many digits.
    #[error("no bytes have so many base32 digits")]
    BadLength,
    /// A bit after the last whole byte isn't zero.
    #[error("an unused bit at the end isn't zero")]
    TailBits,
}

/// Why a base32 text wasn't read.
#[derive(Clone, Copy, Debug, PartialEq, Eq, Error)]
pub enum Base32Error {
    /// There was no memory for the bytes.
    #[error("out of memory")]
    Memory,
    /// The text isn't base32.
    #[error("{0}")]
    Fault(Base32Fault),
}

impl From<AllocError> for Base32Error {
    ghost from_gives = { λ _ e. e ≡ Memory };

    fn from(_: AllocError) -> Self {
        Base32Error::Memory
    }
}

impl From<Base32Fault> for Base32Error {
    ghost from_gives = { λ fault e. e ≡ Fault fault };

    fn from(fault: Base32Fault) -> Self {
        Base32Error::Fault(fault)
    }
}
