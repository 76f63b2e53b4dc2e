// Reads of a replica that runs.
ghost use Rattle.std.specs.Prelude.{◌≡◌, false, true, slice_get, Some, IfOk, IfSome};
ghost use Rattle.mc_keep.specs.Causes.{IfTold};
ghost use Rattle.mc_model.specs.Front.{is_processed};
ghost use Rattle.mc_model.specs.Kept.{bytes_at, processed};
ghost use Rattle.mc_model.specs.Offer.{block_of, is_good};
ghost use Rattle.mc_core.specs.Exact.{IfRefused};
ghost use Rattle.mc_core.specs.Refusals.{is_fault};
ghost use Rattle.mc_past.specs.Looks.{Looks};
ghost use Rattle.mc_past.specs.Walks.{IsBlockOf};

use mc_base::{Bytes, Cid};
use mc_block::{BlockError, read_block};
use mc_core::{CoreError, Replica};
use mc_keep::Keeper;
use mc_model::{Block, kept_is_durable};
use std::alloc::{AllocError, Global};

// Whether the replica has stopped.
pub(crate) fn has_stopped<K: Keeper>(replica: &Replica<K>) -> bool
    ensures { result ≡ replica.now.stopped }
{
    match replica.report() {
        Ok(_) => false,
        Err(_) => true,
    }
}

// The block at a place in the order of processing, or none past its end.
pub(crate) fn block_at<K: Keeper>(
    replica: &mut Replica<K>,
    alloc: Global,
    position: u64,
) -> Result<Option<Block>, CoreError>
    requires runs { replica.old.stopped ≡ false }
    ensures block { IfTold (K.told replica.old.keeper) result (λ kept found.
        found ≡ slice_get (processed kept) position) }
    ensures refused { IfRefused result ⊥ }
    ensures looks { Looks K.Keeper (is_fault result) replica.old replica.new }
{
    kept_is_durable();
    replica.block_at(alloc, position)
}

// The processed block of an identifier, or none where it isn't processed. Over a keeper that does not tell, bytes that
// are no block, and none, count as none.
pub(crate) fn processed_block<K: Keeper>(
    replica: &mut Replica<K>,
    alloc: Global,
    cid: &Cid,
) -> Result<Option<Block>, CoreError>
    requires runs { replica.old.stopped ≡ false }
    ensures block { IfTold (K.told replica.old.keeper) result (λ kept found.
        IsBlockOf cid.now (processed kept) found) }
    ensures named { IfOk result (λ found. IfSome found (λ block. block.cid ≡ cid.now)) }
    ensures refused { IfRefused result ⊥ }
    ensures looks { Looks K.Keeper (is_fault result) replica.old replica.new }
{
    match has_processed(replica, cid) {
        Ok(true) => stored_block(replica, alloc, cid),
        Ok(false) => Ok(None),
        Err(error) => Err(error),
    }
}

// Whether a block is processed.
pub(crate) fn has_processed<K: Keeper>(
    replica: &mut Replica<K>,
    cid: &Cid,
) -> Result<bool, CoreError>
    requires runs { replica.old.stopped ≡ false }
    ensures found { IfTold (K.told replica.old.keeper) result (λ kept found.
        found ≡ is_processed (processed kept) cid.now) }
    ensures refused { IfRefused result ⊥ }
    ensures looks { Looks K.Keeper (is_fault result) replica.old replica.new }
{
    kept_is_durable();
    match replica.position(cid) {
        Ok(place) => Ok(place.is_some()),
        Err(error) => Err(error),
    }
}

// The block that is stored under an identifier.
fn stored_block<K: Keeper>(
    replica: &mut Replica<K>,
    alloc: Global,
    cid: &Cid,
) -> Result<Option<Block>, CoreError>
    requires runs { replica.old.stopped ≡ false }
    ensures block { IfTold (K.told replica.old.keeper) result (λ kept found.
        is_processed (processed kept) cid.now ≡ true → IsBlockOf cid.now (processed kept) found) }
    ensures named { IfOk result (λ found. IfSome found (λ block. block.cid ≡ cid.now)) }
    ensures refused { IfRefused result ⊥ }
    ensures looks { Looks K.Keeper (is_fault result) replica.old replica.new }
{
    kept_is_durable();
    replica.is_sound();
    match stored(replica, alloc, cid) {
        Ok(Some(bytes)) => match good_block(alloc, cid, bytes.as_slice()) {
            Ok(found) => Ok(found),
            Err(AllocError) => Err(CoreError::Memory),
        },
        Ok(None) => Ok(None),
        Err(error) => Err(error),
    }
}

// The bytes of a stored block, or none where it is not stored.
fn stored<K: Keeper>(
    replica: &mut Replica<K>,
    alloc: Global,
    cid: &Cid,
) -> Result<Option<Bytes>, CoreError>
    requires runs { replica.old.stopped ≡ false }
    ensures bytes { IfTold (K.told replica.old.keeper) result (λ kept bytes. bytes ≡ bytes_at kept.graph cid.now) }
    ensures refused { IfRefused result ⊥ }
    ensures looks { Looks K.Keeper (is_fault result) replica.old replica.new }
{
    kept_is_durable();
    replica.block(alloc, cid)
}

// The block that bytes are under an identifier, or none where they are none.
fn good_block(alloc: Global, cid: &Cid, bytes: &[u8]) -> Result<Option<Block>, AllocError>
    ensures good { IfOk result (λ found. is_good cid.now bytes.now ≡ true →
        found ≡ Some (block_of cid.now bytes.now)) }
    ensures named { IfOk result (λ found. IfSome found (λ block. block.cid ≡ cid.now)) }
{
    match read_block(alloc, cid, bytes) {
        Ok(block) => Ok(Some(block)),
        Err(BlockError::Damaged(_)) => Ok(None),
        Err(BlockError::Memory) => Err(AllocError),
    }
}
