// Why a text isn't a key.
ghost use Rattle.std.specs.Prelude.{◌≡◌};
ghost use Rattle.mc_key.specs.KeyRule.{fault_number};

use thiserror::Error;

/// Why a text isn't a key. The faults are looked for in this order, and numbered so, from 1.
#[derive(Clone, Copy, Debug, PartialEq, Eq, Error)]
pub enum KeyFault {
    /// The text is empty.
    #[error("the key is empty")]
    Empty,
    /// The text doesn't begin with `/`.
    #[error("the key doesn't begin with a slash")]
    NoSlash,
    /// The text has more than 1,024 bytes.
    #[error("the key has more than 1024 bytes")]
    TooLong,
    /// A part between slashes, or after the last, is empty.
    #[error("a segment of the key is empty")]
    EmptySegment,
    /// A part between slashes, or after the last, is `.` or `..`.
    #[error("a segment of the key is one dot or two")]
    DotSegment,
}

impl KeyFault {
    /// The fault's number in the order of the list, from 1 to 5.
    pub fn number(self) -> u64
        ensures { result ≡ fault_number self }
    {
        match self {
            KeyFault::Empty => 1,
            KeyFault::NoSlash => 2,
            KeyFault::TooLong => 3,
            KeyFault::EmptySegment => 4,
            KeyFault::DotSegment => 5,
        }
    }
}
