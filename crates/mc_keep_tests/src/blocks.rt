// Blocks of the examples, and how a keeper takes them up.
ghost use Rattle.std.specs.Prelude.{◌≡◌, ◌++◌, ◌∷◌, true, false, Ok, List, [], IfSome, IfOk, OnOk};
ghost use Rattle.mc_model.specs.Offer.{offer};
ghost use Rattle.std.specs.List.{list_all, list_any};
ghost use Rattle.mc_model.specs.Ascending.{is_once};
ghost use Rattle.mc_model.specs.Front.{same_cid, is_among};
ghost use Rattle.mc_model.specs.Kept.{block_in, blocks_in, is_stored};
ghost use Rattle.mc_keep.specs.Causes.{IfTold};

use crate::trials::{process_changes, store_of};
use mc_base::{Bytes, Cid, List, Text};
use mc_block::{read_block, write_block};
use mc_keep::{KeepError, Keeper, changes_fit};
use mc_model::{Block, Delta, Element};
use std::alloc::{AllocError, Global};

/// Stores the bytes, which are a block, unless they are stored.
pub fn store_bytes<K: Keeper>(
    keeper: &mut K,
    alloc: Global,
    bytes: Bytes,
) -> Result<Cid, KeepError> {
    changes_fit();
    let cid = Cid::of(bytes.as_slice());
    read(alloc, &cid, &bytes)?;
    if keeper.stored(&cid)? {
        return Ok(cid);
    }
    let store = store_of(alloc, cid, bytes)?;
    keeper.reserve(1)?;
    keeper.commit(store)?;
    Ok(cid)
}

fn read(alloc: Global, cid: &Cid, bytes: &Bytes) -> Result<Block, KeepError>
    ensures { IfOk result (λ block. offer cid.now bytes.now ≡ Ok block) }
{
    match read_block(alloc, cid, bytes.as_slice()) {
        Ok(block) => Ok(block),
        Err(_) => Err(KeepError::Memory),
    }
}

// The stored blocks with these identifiers.
fn read_group<K: Keeper>(
    keeper: &mut K,
    alloc: Global,
    cids: &[Cid],
) -> Result<List<Block>, KeepError>
    ensures blocks { IfTold (K.told keeper.old) result (λ kept blocks. blocks ≡ blocks_in kept.graph cids.now) }
    ensures stored { OnOk result (IfSome (K.told keeper.old) (λ kept.
        list_all (is_stored kept.graph) cids.now ≡ true)) }
    ensures told { K.told keeper.new ≡ K.told keeper.old }
{
    let mut blocks = List::new(alloc);
    for cid in cids {
        let block = read_stored(keeper, alloc, cid)?;
        add(&mut blocks, block)?;
    }
    Ok(blocks)
}

pub(crate) fn add<T: Drop>(list: &mut List<T>, item: T) -> Result<(), AllocError>
    ensures { OnOk result (list.new ≡ list.old ++ item ∷ []) }
{
    match list.push(item) {
        Ok(()) => Ok(()),
        Err(_) => Err(AllocError),
    }
}

fn read_stored<K: Keeper>(keeper: &mut K, alloc: Global, cid: &Cid) -> Result<Block, KeepError>
    ensures block { IfTold (K.told keeper.old) result (λ kept block. block ≡ block_in kept.graph cid.now) }
    ensures stored { OnOk result (IfSome (K.told keeper.old) (λ kept. is_stored kept.graph cid.now ≡ true)) }
    ensures told { K.told keeper.new ≡ K.told keeper.old }
{
    match keeper.block(alloc, cid)? {
        Some(bytes) => read(alloc, cid, &bytes),
        None => Err(KeepError::Memory),
    }
}

// Whether none of the blocks is processed.
fn none_processed<K: Keeper>(keeper: &mut K, cids: &[Cid]) -> Result<bool, KeepError>
    ensures none { IfTold (K.told keeper.old) result (λ kept none.
        none ≡ true → list_any (is_among kept.order) cids.now ≡ false) }
    ensures told { K.told keeper.new ≡ K.told keeper.old }
{
    for cid in cids {
        if is_processed(keeper, cid)? {
            return Ok(false);
        }
    }
    Ok(true)
}

fn is_processed<K: Keeper>(keeper: &mut K, cid: &Cid) -> Result<bool, KeepError>
    ensures found { IfTold (K.told keeper.old) result (λ kept found. found ≡ is_among kept.order cid.now) }
    ensures told { K.told keeper.new ≡ K.told keeper.old }
{
    Ok(keeper.position(cid)?.is_some())
}

// Whether no identifier stands twice, by comparing each with each.
fn are_once(cids: &[Cid]) -> bool
    ensures { result ≡ is_once same_cid cids.now }
{
    match cids {
        [] => true,
        [first, rest @ ..] => !has_cid(rest, first) && are_once(rest),
    }
}

fn has_cid(cids: &[Cid], cid: &Cid) -> bool
    ensures { result ≡ is_among cids.now cid.now }
{
    for other in cids {
        if *cid == *other {
            return true;
        }
    }
    false
}

/// Processes these stored blocks in one commit, and answers the number of gaps.
pub fn process<K: Keeper>(
    keeper: &mut K,
    alloc: Global,
    cids: &[Cid],
    whole: bool,
) -> Result<u64, KeepError> {
    changes_fit();
    let blocks = read_group(keeper, alloc, cids)?;
    if !are_once(cids) {
        return Err(KeepError::Memory);
    }
    if !none_processed(keeper, cids)? {
        return Err(KeepError::Memory);
    }
    let changes = process_changes(keeper, alloc, blocks.as_slice(), whole)?;
    let rows = changes.rows();
    if rows == u64::MAX {
        return Err(KeepError::Memory);
    }
    keeper.reserve(rows)?;
    keeper.commit(changes)?;
    Ok(keeper.summary()?.gaps)
}

/// The bytes of a block of priority 1 that sets a key to one byte.
pub fn element(alloc: Global, value: u8) -> Result<Bytes, AllocError> {
    let mut delta = no_delta(alloc, 1);
    delta.elements.push(Element {
        key: Text::from_text(alloc, "/k")?,
        value: Bytes::from_slice(alloc, &[value])?,
    })?;
    Ok(write_block(alloc, &[], &delta)?.bytes)
}

/// A delta of this priority without a row.
pub fn no_delta(alloc: Global, priority: u64) -> Delta {
    Delta {
        elements: List::new(alloc),
        tombstones: List::new(alloc),
        priority,
    }
}

/// Stores a block and processes it, each in one commit.
pub fn take_up<K: Keeper>(keeper: &mut K, alloc: Global, bytes: Bytes) -> Result<Cid, KeepError> {
    let cid = store_bytes(keeper, alloc, bytes)?;
    process(keeper, alloc, &[cid], true)?;
    Ok(cid)
}
