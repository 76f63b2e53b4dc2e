// Why no field can be read.
use thiserror::Error;

/// A fault in the wire format.
#[derive(Clone, Copy, Debug, PartialEq, Eq, Error)]
pub enum WireFault {
    /// The input ends within the key or the content of a field.
    #[error("the input ends within a field")]
    Short,
    /// The first ten bytes of a varint all have the high bit, or its tenth byte is above 1.
    #[error("a varint has no room in 64 bits")]
    LongVarint,
    /// The wire type isn't 0, 1, 2 or 5.
    #[error("the wire type is unknown")]
    WireType,
    /// The field number is 0.
    #[error("a field has the number 0")]
    FieldZero,
}

/// A fault in the wire format, with the offset of the key of its field.
#[derive(Clone, Copy, Debug, PartialEq, Eq, Error)]
#[error("{kind} at {at}")]
pub struct WireFaultAt {
    pub kind: WireFault,
    pub at: usize,
}
