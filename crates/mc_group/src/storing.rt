// Verified blocks that are stored alone.
ghost use Rattle.std.specs.Prelude.{◌≡◌, ◌≤◌, ◌+◌, ◌++◌, ◌∷◌, [], false, true, None, map, length, IfOk, IfSome, OnErr, OnOk};
ghost use Rattle.std.specs.List.{list_all};
ghost use Rattle.std.specs.Result.{is_err};
ghost use Rattle.mc_keep.specs.Calls.{Reads};
ghost use Rattle.mc_keep.specs.Causes.{IfTold};
ghost use Rattle.mc_keep.specs.Changes.{row_count};
ghost use Rattle.mc_keep.specs.Plan.{is_fault as keeper_failed};
ghost use Rattle.mc_keep.specs.Tables.{ChangesFit};
ghost use Rattle.mc_model.specs.Graph.{has, in_graph};
ghost use Rattle.mc_model.specs.Kept.{cids_of};
ghost use Rattle.mc_model.specs.Offer.{is_good};
ghost use Rattle.mc_model.specs.State.{durable_of};
ghost use Rattle.mc_model.specs.declared.block.Stored.{Stored as Item};
ghost use Rattle.mc_inbox.specs.Waiting.{as_stored};
ghost use Rattle.mc_group.specs.Planning.{storing};
ghost use Rattle.mc_group.specs.Storing.{unstored, with_new};

use crate::planning::reserve_rows;
use indexmap::IndexSet;
use mc_base::{Cid, Failed, List};
use mc_block::Verified;
use mc_keep::{Changes, KeepError, Keeper, changes_fit};
use mc_model::{Stored, kept_is_durable};
use std::alloc::{AllocError, Global};

/// Plans to store those of these blocks that are not stored, of several with one identifier the first, in their order,
/// and takes all the memory that the keeper needs.
pub fn plan_store<K: Keeper>(
    keeper: &mut K,
    alloc: Global,
    blocks: List<Verified>,
) -> Result<Changes, KeepError>
    ensures store { IfTold (K.told keeper.old) result (λ kept changes.
        changes ≡ storing (unstored (durable_of kept).graph (map as_stored blocks))) }
    ensures fits { IfTold (K.told keeper.old) result (λ kept changes. ChangesFit kept changes) }
    ensures only { IfOk result (λ changes. (changes.marks ≡ []) × (changes.mark ≡ None)) }
    ensures few { IfOk result (λ changes. length changes.store ≤ length blocks) }
    ensures room { IfOk result (λ changes. row_count changes ≤ K.spare keeper.new) }
    ensures reads { Reads K.Keeper (keeper_failed result) keeper.old keeper.new }
{
    changes_fit();
    let mut changes = Changes::new(alloc);
    changes.store = unstored(keeper, alloc, blocks)?;
    match reserve_rows(keeper, &changes, 0) {
        Ok(()) => Ok(changes),
        Err(AllocError) => Err(KeepError::Memory),
    }
}

// Those of the blocks that are not stored, of several with one identifier the first.
fn unstored<K: Keeper>(
    keeper: &mut K,
    alloc: Global,
    blocks: List<Verified>,
) -> Result<List<Stored>, KeepError>
    ensures stores { IfTold (K.told keeper.old) result (λ kept stores.
        stores ≡ unstored (durable_of kept).graph (map as_stored blocks)) }
    ensures good { IfOk result (λ stores. list_all (λ (item : Item). is_good item.cid item.bytes) stores ≡ true) }
    ensures few { IfOk result (λ stores. length stores ≤ length blocks) }
    ensures reads { Reads K.Keeper (keeper_failed result) keeper.old keeper.new }
{
    let mut seen = IndexSet::new(alloc);
    let mut stores = List::new(alloc);
    match add_all(keeper, &mut seen, &mut stores, blocks) {
        Ok(()) => Ok(stores),
        Err(error) => Err(error),
    }
}

// The same, into these, which are empty.
fn add_all<K: Keeper>(
    keeper: &mut K,
    seen: &mut IndexSet<Cid>,
    stores: &mut List<Stored>,
    blocks: List<Verified>,
) -> Result<(), KeepError>
    requires none { (seen.old.keys ≡ []) × (stores.old ≡ []) }
    ensures stores { IfTold (K.told keeper.old) result (λ kept done.
        stores.new ≡ unstored (durable_of kept).graph (map as_stored blocks)) }
    ensures good { OnOk result (list_all (λ (item : Item). is_good item.cid item.bytes) stores.new ≡ true) }
    ensures few { OnOk result (length stores.new ≤ length blocks) }
    ensures reads { Reads K.Keeper (keeper_failed result) keeper.old keeper.new }
{
    for block in blocks.into_vec() {
        match add_new(keeper, seen, stores, block) {
            Ok(()) => {}
            Err(error) => return Err(error),
        }
    }
    Ok(())
}

// Adds a block to those that are to be stored, where it is not among them and not stored.
fn add_new<K: Keeper>(
    keeper: &mut K,
    seen: &mut IndexSet<Cid>,
    stores: &mut List<Stored>,
    block: Verified,
) -> Result<(), KeepError>
    requires seen { seen.old.keys ≡ cids_of stores.old }
    ensures stores { IfTold (K.told keeper.old) result (λ kept done.
        stores.new ≡ with_new (durable_of kept).graph stores.old (as_stored block)) }
    ensures seen { OnOk result (seen.new.keys ≡ cids_of stores.new) }
    ensures good { list_all (λ (item : Item). is_good item.cid item.bytes) stores.old ≡ true →
        OnOk result (list_all (λ (item : Item). is_good item.cid item.bytes) stores.new ≡ true) }
    ensures few { OnOk result (length stores.new ≤ length stores.old + 1) }
    ensures reads { Reads K.Keeper (keeper_failed result) keeper.old keeper.new }
{
    if seen.contains(&block.cid) {
        return Ok(());
    }
    if is_stored(keeper, &block.cid)? {
        return Ok(());
    }
    push_new(seen, stores, block)?;
    Ok(())
}

fn is_stored<K: Keeper>(keeper: &mut K, cid: &Cid) -> Result<bool, Failed>
    ensures found { IfTold (K.told keeper.old) result (λ kept found. found ≡ in_graph (durable_of kept).graph cid.now) }
    ensures reads { Reads K.Keeper (is_err result) keeper.old keeper.new }
{
    kept_is_durable();
    keeper.stored(cid)
}

// Adds a block that is not among these.
fn push_new(
    seen: &mut IndexSet<Cid>,
    stores: &mut List<Stored>,
    block: Verified,
) -> Result<(), AllocError>
    requires new { has block.cid seen.old.keys ≡ false }
    ensures stores { OnOk result (stores.new ≡ stores.old ++ as_stored block ∷ []) }
    ensures seen { OnOk result (seen.new.keys ≡ seen.old.keys ++ block.cid ∷ []) }
    ensures good { is_good block.cid block.bytes ≡ true }
{
    let Verified {
        cid,
        bytes,
        block: _,
    } = block;
    seen.insert(cid)?;
    stores.push(Stored { cid, bytes })?;
    Ok(())
}
