// Bytes that were found to be a block.
ghost use Rattle.std.specs.Prelude.{◌≡◌, Ok, IfOk, IfErr};
ghost use Rattle.mc_base.specs.Cid.{digest_of};
ghost use Rattle.mc_model.specs.Offer.{offer};
ghost use Rattle.mc_block.specs.Reads.{IsDamage};

use crate::{BlockError, read_block, read_found};
use mc_base::{Bytes, Cid};
use mc_model::Block;
use std::alloc::Global;

/// Bytes that are a block under a content identifier, with that identifier and that block. Whoever has one needn't look
/// at the bytes again.
#[derive(Debug, Drop)]
pub struct Verified {
    /// The identifier.
    pub cid: Cid,
    /// The bytes, which are good under it.
    pub bytes: Bytes,
    /// The block that they are.
    pub block: Block,
    pub ghost good: { offer cid bytes ≡ Ok block },
    pub ghost named: { block.cid ≡ cid },
}

/// Bytes that were not found to be a block: why, and the bytes.
#[derive(Debug, Drop)]
pub struct VerifyRefused {
    /// Their first damage, or want of memory.
    pub cause: BlockError,
    /// The bytes, as they were given.
    pub bytes: Bytes,
}

/// The bytes with the block that they are under the content identifier. Refused exactly as by `read_block`, with the
/// bytes.
pub fn verify(alloc: Global, cid: &Cid, bytes: Bytes) -> Result<Verified, VerifyRefused>
    ensures same { IfOk result (λ item. (item.cid ≡ cid.now) × (item.bytes ≡ bytes)) }
    ensures good { IfOk result (λ item. offer cid.now bytes ≡ Ok item.block) }
    ensures damaged { IfErr result (λ refused. IsDamage (offer cid.now bytes) refused.cause) }
    ensures back { IfErr result (λ refused. refused.bytes ≡ bytes) }
{
    match read_block(alloc, cid, bytes.as_slice()) {
        Ok(block) => Ok(paired(cid, bytes, block)),
        Err(cause) => Err(VerifyRefused { cause, bytes }),
    }
}

/// The same of bytes that have the digest of the content identifier, which is not computed again.
pub fn verify_found(alloc: Global, cid: &Cid, bytes: Bytes) -> Result<Verified, VerifyRefused>
    requires digest { digest_of bytes ≡ cid.now.0 }
    ensures same { IfOk result (λ item. (item.cid ≡ cid.now) × (item.bytes ≡ bytes)) }
    ensures good { IfOk result (λ item. offer cid.now bytes ≡ Ok item.block) }
    ensures damaged { IfErr result (λ refused. IsDamage (offer cid.now bytes) refused.cause) }
    ensures back { IfErr result (λ refused. refused.bytes ≡ bytes) }
{
    match read_found(alloc, cid, bytes.as_slice()) {
        Ok(block) => Ok(paired(cid, bytes, block)),
        Err(cause) => Err(VerifyRefused { cause, bytes }),
    }
}

// Bytes with the block that they are.
fn paired(cid: &Cid, bytes: Bytes, block: Block) -> Verified
    requires good { offer cid.now bytes ≡ Ok block }
    requires named { block.cid ≡ cid.now }
    ensures same { (result.cid ≡ cid.now) × (result.bytes ≡ bytes) × (result.block ≡ block) }
{
    Verified {
        cid: *cid,
        bytes,
        block,
    }
}
