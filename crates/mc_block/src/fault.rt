// Why bytes are no block.
ghost use Rattle.std.specs.Prelude.{◌≡◌};
ghost use Rattle.mc_model.specs.Found.{damage_number};
ghost use Rattle.mc_block.specs.Faults.{damage_of, of_node, of_delta};
ghost use Rattle.mc_block.specs.declared.fault.BlockError.TheVariants.{Memory, Damaged};

use mc_base::Cid;
use mc_dagpb::{NodeError, NodeFault};
use mc_delta::{DeltaError, DeltaFault};
use std::alloc::{AllocError, AllocFailed};
use thiserror::Error;

/// Why bytes are no block under a content identifier. Of several damages the first of this list is the one.
#[derive(Clone, Copy, Debug, PartialEq, Eq, Error)]
pub enum Damage {
    /// There are more than 1,048,576 bytes.
    #[error("a block of {len} bytes is too large")]
    TooLarge {
        /// The number of bytes.
        len: u64,
    },
    /// The bytes have another content identifier.
    #[error("the bytes have another digest")]
    WrongDigest {
        /// The one that they have.
        found: Cid,
    },
    /// The bytes are no node.
    #[error("no node: {fault}")]
    NotDagPb {
        /// The first fault, with its offset in the bytes.
        fault: NodeFault,
    },
    /// A link is no content identifier of this store's profile.
    #[error("link {index} is no content identifier")]
    BadLink {
        /// The first such link, counted from 0.
        index: u64,
    },
    /// The data of the node is no delta.
    #[error("no delta: {fault}")]
    BadDelta {
        /// The first fault, with its offset in the data.
        fault: DeltaFault,
    },
}

impl Damage {
    /// The number of the damage, 1 to 5 in the order of the list.
    pub fn number(&self) -> u8
        ensures { result ≡ damage_number (damage_of self.now) }
    {
        match self {
            Damage::TooLarge { .. } => 1,
            Damage::WrongDigest { .. } => 2,
            Damage::NotDagPb { .. } => 3,
            Damage::BadLink { .. } => 4,
            Damage::BadDelta { .. } => 5,
        }
    }
}

/// Why no block was read.
#[derive(Clone, Copy, Debug, PartialEq, Eq, Error)]
pub enum BlockError {
    /// The bytes are no block.
    #[error("{0}")]
    Damaged(Damage),
    /// Want of memory.
    #[error("out of memory")]
    Memory,
}

impl From<AllocError> for BlockError {
    ghost from_gives = { λ _ e. e ≡ Memory };

    fn from(_: AllocError) -> Self {
        BlockError::Memory
    }
}

impl From<AllocFailed<Cid>> for BlockError {
    ghost from_gives = { λ _ e. e ≡ Memory };

    fn from(_: AllocFailed<Cid>) -> Self {
        BlockError::Memory
    }
}

impl From<Damage> for BlockError {
    ghost from_gives = { λ damage e. e ≡ Damaged damage };

    fn from(damage: Damage) -> Self {
        BlockError::Damaged(damage)
    }
}

impl From<NodeError> for BlockError {
    ghost from_gives = { λ error e. e ≡ of_node error };

    fn from(error: NodeError) -> Self {
        match error {
            NodeError::Fault(fault) => BlockError::Damaged(Damage::NotDagPb { fault }),
            NodeError::Memory => BlockError::Memory,
        }
    }
}

impl From<DeltaError> for BlockError {
    ghost from_gives = { λ error e. e ≡ of_delta error };

    fn from(error: DeltaError) -> Self {
        match error {
            DeltaError::Fault(fault) => BlockError::Damaged(Damage::BadDelta { fault }),
            DeltaError::Memory => BlockError::Memory,
        }
    }
}
