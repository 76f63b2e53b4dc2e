// Why a text is no node.
ghost use Rattle.std.specs.Prelude.{◌≡◌};
ghost use Rattle.mc_base.specs.NodeRead.{wire_kind};
ghost use Rattle.mc_wire.specs.Named.{fault_named};
ghost use Rattle.mc_dagpb.specs.Named.{kind_named};
ghost use Rattle.mc_dagpb.specs.declared.fault.NodeError.TheVariants.{Memory, Fault};

use mc_wire::{WireFault, WireFaultAt};
use std::alloc::{AllocError, AllocFailed};
use thiserror::Error;

/// What is wrong with a node.
#[derive(Clone, Copy, Debug, PartialEq, Eq, Error)]
pub enum NodeFaultKind {
    /// The input, or a link's body, ends within a field.
    #[error("the input ends within a field")]
    Short,
    /// The first ten bytes of a varint all have the high bit, or its tenth byte is above 1.
    #[error("a varint has no room in 64 bits")]
    LongVarint,
    /// A field that may stand has another wire type.
    #[error("a field has another wire type")]
    WireType,
    /// A field number that may not stand there, 0 among them.
    #[error("a field may not stand there")]
    BadField,
    /// A link's field whose number isn't above the one before, a second Data, or a link after a Data that stands after
    /// a link.
    #[error("fields are out of order")]
    Order,
    /// A link without a Hash.
    #[error("a link has no hash")]
    NoHash,
    /// A Name that isn't UTF-8.
    #[error("a name is no text")]
    NameText,
}

/// A fault of a node, with the offset in the node of the key of the innermost field at fault. For a link without a Hash
/// it is the link's key.
#[derive(Clone, Copy, Debug, PartialEq, Eq, Error)]
#[error("{kind} at {at}")]
pub struct NodeFault {
    pub kind: NodeFaultKind,
    pub at: usize,
}

/// Why a node wasn't read.
#[derive(Clone, Copy, Debug, PartialEq, Eq, Error)]
pub enum NodeError {
    /// There was no memory for what the node holds.
    #[error("out of memory")]
    Memory,
    /// The text is no node, with its first fault.
    #[error("{0}")]
    Fault(NodeFault),
}

impl From<AllocError> for NodeError {
    ghost from_gives = { λ _ e. e ≡ Memory };

    fn from(_: AllocError) -> Self {
        NodeError::Memory
    }
}

impl From<NodeFault> for NodeError {
    ghost from_gives = { λ fault e. e ≡ Fault fault };

    fn from(fault: NodeFault) -> Self {
        NodeError::Fault(fault)
    }
}

impl From<WireFaultAt> for NodeFault {
    ghost from_gives = { λ wire fault. (kind_named fault.kind ≡ wire_kind (fault_named wire.kind))
        × (fault.at ≡ wire.at) };

    fn from(fault: WireFaultAt) -> Self {
        NodeFault {
            kind: kind_of(fault.kind),
            at: fault.at,
        }
    }
}

// A fault of the wire format, as one of a node.
pub(crate) fn kind_of(fault: WireFault) -> NodeFaultKind
    ensures { kind_named result ≡ wire_kind (fault_named fault) }
{
    match fault {
        WireFault::Short => NodeFaultKind::Short,
        WireFault::LongVarint => NodeFaultKind::LongVarint,
        WireFault::WireType => NodeFaultKind::WireType,
        WireFault::FieldZero => NodeFaultKind::BadField,
    }
}
