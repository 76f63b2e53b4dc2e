// A block, as it was read.
use crate::Delta;
use mc_base::{Bytes, Cid, List};

/// A block of the graph, read from its bytes.
#[derive(Debug, Drop)]
pub struct Block {
    /// The content identifier: the digest of the block's bytes.
    pub cid: Cid,
    /// The blocks that it links to, in the order of its bytes. A link may stand twice.
    pub links: List<Cid>,
    /// What it changes.
    pub delta: Delta,
}

/// The bytes of a block under its content identifier.
#[derive(Debug, Drop)]
pub struct Stored {
    /// The content identifier.
    pub cid: Cid,
    /// The bytes.
    pub bytes: Bytes,
}
