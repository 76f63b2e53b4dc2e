// Blocks that are read by their places in the order of processing.
ghost use Rattle.std.specs.Prelude.{◌≡◌, ◌++◌, ◌∷◌, [], true, drop, slice_get, Some, IfOk, IfSome, OnOk};
ghost use Rattle.mc_model.specs.Kept.{IsKept, processed};
ghost use Rattle.mc_model.specs.Offer.{block_of, is_good};
ghost use Rattle.mc_keep.specs.Calls.{Reads};
ghost use Rattle.mc_keep.specs.Causes.{IfTold};
ghost use Rattle.mc_keep.specs.Plan.{is_fault};

use mc_base::{Cid, List};
use mc_block::{BlockError, read_block};
use mc_keep::{KeepError, Keeper};
use mc_model::Block;
use std::alloc::{AllocError, Global};

/// The block at a place in the order of processing, from 0, or none past its end. Over a keeper that does not tell, bytes
/// that are no block, and none, count as none. `Failed` comes only where the keeper failed.
pub fn block_at<K: Keeper>(
    keeper: &mut K,
    alloc: Global,
    position: u64,
) -> Result<Option<Block>, KeepError>
    ensures block { IfTold (K.told keeper.old) result (λ kept found. found ≡ slice_get (processed kept) position) }
    ensures reads { Reads K.Keeper (is_fault result) keeper.old keeper.new }
{
    is_sound(keeper);
    let Some(cid) = keeper.at(position)? else {
        return Ok(None);
    };
    let Some(bytes) = keeper.block(alloc, &cid)? else {
        return Ok(None);
    };
    let found = good_block(alloc, &cid, bytes.as_slice())?;
    Ok(found)
}

/// The blocks from a place in the order of processing on.
pub(crate) fn blocks_from<K: Keeper>(
    keeper: &mut K,
    alloc: Global,
    from: u64,
) -> Result<List<Block>, KeepError>
    ensures blocks { IfTold (K.told keeper.old) result (λ kept blocks. blocks ≡ drop from (processed kept)) }
    ensures reads { Reads K.Keeper (is_fault result) keeper.old keeper.new }
{
    let mut blocks = List::new(alloc);
    let mut position = from;
    loop {
        let Some(block) = block_at(keeper, alloc, position)? else {
            return Ok(blocks);
        };
        add(&mut blocks, block)?;
        let Some(next) = position.checked_add(1) else {
            return Err(KeepError::Memory);
        };
        position = next;
    }
}

// One item more.
pub(crate) fn add<T: Drop>(list: &mut List<T>, item: T) -> Result<(), AllocError>
    ensures { OnOk result (list.new ≡ list.old ++ item ∷ []) }
{
    match list.push(item) {
        Ok(()) => Ok(()),
        Err(_) => Err(AllocError),
    }
}

// What the keeper tells is sound.
fn is_sound<K: Keeper>(keeper: &K)
    ensures { IfSome (K.told keeper.now) IsKept }
{}

// The block that bytes are under an identifier, or none where they are none.
fn good_block(alloc: Global, cid: &Cid, bytes: &[u8]) -> Result<Option<Block>, AllocError>
    ensures { IfOk result (λ found. is_good cid.now bytes.now ≡ true → found ≡ Some (block_of cid.now bytes.now)) }
{
    match read_block(alloc, cid, bytes) {
        Ok(block) => Ok(Some(block)),
        Err(BlockError::Damaged(_)) => Ok(None),
        Err(BlockError::Memory) => Err(AllocError),
    }
}
