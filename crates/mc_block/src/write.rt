// Making a block.
ghost use Rattle.std.specs.Prelude.{◌≡◌, ◌≤◌, length, Ok, IfOk};
ghost use Rattle.mc_model.specs.Made.{made_bytes, made_cid};
ghost use Rattle.mc_model.specs.Offer.{offer, block_max};

use crate::laws::written_blocks_are_good;
use crate::limits::fit_types;
use mc_base::{Bytes, Cid};
use mc_dagpb::begin_node;
use mc_delta::{append_delta, len_delta};
use mc_model::Delta;
use std::alloc::{AllocError, Global};

/// A block that was made: its bytes, and the content identifier that is their digest.
#[derive(Debug, Drop)]
pub struct Made {
    /// The content identifier.
    pub cid: Cid,
    /// The bytes.
    pub bytes: Bytes,
}

/// The block with these links, in this order, and this delta. Its bytes are the written node, whose data is the written
/// delta. A block of at most 1,048,576 bytes is read again; whether it is so short is the caller's to see.
pub fn write_block(alloc: Global, links: &[Cid], delta: &Delta) -> Result<Made, AllocError>
    ensures bytes { IfOk result (λ made. made.bytes ≡ made_bytes links.now delta.now) }
    ensures cid { IfOk result (λ made. made.cid ≡ made_cid links.now delta.now) }
    ensures good { IfOk result (λ made. length made.bytes ≤ block_max →
        offer made.cid made.bytes ≡ Ok (record { cid = made.cid; links = links.now; delta = delta.now })) }
{
    let bytes = bytes_of(alloc, links, delta)?;
    let cid = Cid::of(bytes.as_slice());
    fit_types(links, delta);
    written_blocks_are_good();
    Ok(Made { cid, bytes })
}

// The bytes of a block. A delta whose length passes 64 bits has no room in memory.
fn bytes_of(alloc: Global, links: &[Cid], delta: &Delta) -> Result<Bytes, AllocError>
    ensures { IfOk result (λ bytes. bytes ≡ made_bytes links.now delta.now) }
{
    let len = len_delta(delta);
    if len == u64::MAX {
        return Err(AllocError);
    }
    let node = begin_node(alloc, links, len)?;
    append_delta(node, delta)
}
