// Found blocks, up to their commits.
ghost use Rattle.std.specs.Prelude.{◌≡◌, ◌≤◌, ◌∷◌, [], true, false, None, Some, Ok, IfOk, IfSome};
ghost use Rattle.std.specs.Prelude.{length};
ghost use Rattle.mc_keep.specs.Calls.{Reads};
ghost use Rattle.mc_keep.specs.Causes.{IfTold};
ghost use Rattle.mc_keep.specs.Plan.{is_fault as keeper_failed};
ghost use Rattle.mc_model.specs.Front.{is_among};
ghost use Rattle.mc_model.specs.Kept.{bytes_at, is_stored};
ghost use Rattle.mc_model.specs.Offer.{is_good, offer};
ghost use Rattle.mc_model.specs.declared.layout.Layout.TheVariants.{Two};
ghost use Rattle.mc_plan.specs.Jobs.{IsTaken};
ghost use Rattle.mc_model.specs.Events.{Process};
ghost use Rattle.mc_plan.specs.Uptakes as uptakes;
ghost use Rattle.mc_plan.specs.Uptakes.{IsNew, IsNoOther, IsShaped, IsSomeUptake, IsUptake};
ghost use Rattle.mc_plan.specs.Uptakes.{uptake_events, uptake_rows, store_change, with_store};

use crate::sound::is_sound;
use crate::uptakes::{Uptake, uptake_of};
use crate::wanting::open_links;
use mc_base::{Bytes, Cid};
use mc_block::{BlockError, read_block};
use mc_keep::{KeepError, Keeper};
use mc_model::Block;
use std::alloc::Global;

/// A block that was found, planned to be taken up: its commits, with all their memory taken but for what is wanted then,
/// and the position that it will have.
#[derive(Drop)]
pub struct Arrival {
    pub uptake: Uptake,
    pub position: u64,
}

/// Plans to take up a block that was found under this identifier, and takes all the memory that the keeper needs.
pub fn plan_arrival<K: Keeper>(
    keeper: &mut K,
    alloc: Global,
    cid: &Cid,
    block: Block,
    bytes: Bytes,
    whole: bool,
) -> Result<Arrival, KeepError>
    requires two { K.layout keeper.old ≡ Two }
    requires good { (offer cid.now bytes ≡ Ok block) × (block.cid ≡ cid.now) }
    requires new { IfSome (K.told keeper.old) (λ kept. is_among kept.order cid.now ≡ false) }
    ensures uptake { IfTold (K.told keeper.old) result (λ kept arrival. IsSomeUptake kept whole arrival.uptake) }
    ensures events { IfTold (K.told keeper.old) result (λ kept arrival. uptake_events arrival.uptake
        ≡ with_store (store_change kept.graph cid.now bytes) (Process (cid.now ∷ []) ∷ [])) }
    ensures position { IfTold (K.told keeper.old) result (λ kept arrival. arrival.position ≡ length kept.order) }
    ensures shape { IfOk result (λ arrival. IsShaped arrival.uptake) }
    ensures same { IfOk result (λ arrival. arrival.uptake.after.cid ≡ cid.now) }
    ensures room { IfOk result (λ arrival. uptake_rows arrival.uptake ≤ K.spare keeper.new) }
    ensures reads { Reads K.Keeper (keeper_failed result) keeper.old keeper.new }
{
    let known = keeper.stored(cid)?;
    let taken = block_to_process(keeper, alloc, cid, known, Taken { block, bytes })?;
    let Taken { block, bytes } = taken;
    plan_block(keeper, alloc, &block, bytes, known, whole)
}

// The same of the block that is processed where one was found.
fn plan_block<K: Keeper>(
    keeper: &mut K,
    alloc: Global,
    block: &Block,
    bytes: Bytes,
    known: bool,
    whole: bool,
) -> Result<Arrival, KeepError>
    requires two { K.layout keeper.old ≡ Two }
    requires new { IfSome (K.told keeper.old) (λ kept. IsNew kept block.now bytes (uptakes.open_links kept block.now)) }
    requires stored { IfSome (K.told keeper.old) (λ kept. known ≡ is_stored kept.graph block.now.cid) }
    ensures uptake { IfTold (K.told keeper.old) result (λ kept arrival.
        IsUptake kept whole block.now bytes arrival.uptake) }
    ensures position { IfTold (K.told keeper.old) result (λ kept arrival. arrival.position ≡ length kept.order) }
    ensures shape { IfOk result (λ arrival. IsShaped arrival.uptake) }
    ensures same { IfOk result (λ arrival. arrival.uptake.after.cid ≡ block.now.cid) }
    ensures room { IfOk result (λ arrival. uptake_rows arrival.uptake ≤ K.spare keeper.new) }
    ensures reads { Reads K.Keeper (keeper_failed result) keeper.old keeper.new }
{
    let links = open_links(keeper, alloc, block)?;
    let position = keeper.summary()?.processed;
    let uptake = uptake_of(keeper, alloc, block, bytes, known, links, whole)?;
    Ok(Arrival { uptake, position })
}

// A block, and the bytes that it was read from.
#[derive(Drop)]
struct Taken {
    block: Block,
    bytes: Bytes,
}

// The block that is processed where this one was found: what is stored under its identifier already, or else itself.
fn block_to_process<K: Keeper>(
    keeper: &mut K,
    alloc: Global,
    cid: &Cid,
    known: bool,
    found: Taken,
) -> Result<Taken, KeepError>
    requires good { IsTaken cid.now found }
    ensures good { IfOk result (IsTaken cid.now) }
    ensures found { known ≡ false → IfOk result (λ taken. taken ≡ found) }
    ensures stored { IfTold (K.told keeper.old) result (λ kept taken.
        known ≡ is_stored kept.graph cid.now → IsNoOther (bytes_at kept.graph cid.now) taken.bytes) }
    ensures reads { Reads K.Keeper (keeper_failed result) keeper.old keeper.new }
{
    if !known {
        return Ok(found);
    }
    stored_block(keeper, alloc, cid, found)
}

// What is stored under an identifier as a block; where it is none, this one stands in its place.
fn stored_block<K: Keeper>(
    keeper: &mut K,
    alloc: Global,
    cid: &Cid,
    found: Taken,
) -> Result<Taken, KeepError>
    requires good { IsTaken cid.now found }
    ensures good { IfOk result (IsTaken cid.now) }
    ensures stored { IfTold (K.told keeper.old) result (λ kept taken.
        IsNoOther (bytes_at kept.graph cid.now) taken.bytes) }
    ensures reads { Reads K.Keeper (keeper_failed result) keeper.old keeper.new }
{
    is_sound(keeper);
    match keeper.block(alloc, cid) {
        Ok(Some(bytes)) => read_stored(alloc, cid, bytes, found),
        Ok(None) => Ok(found),
        Err(error) => Err(error),
    }
}

// Stored bytes as a block; where they are none, this one stands in its place.
fn read_stored(alloc: Global, cid: &Cid, bytes: Bytes, found: Taken) -> Result<Taken, KeepError>
    requires good { IsTaken cid.now found }
    ensures good { IfOk result (IsTaken cid.now) }
    ensures stored { is_good cid.now bytes ≡ true → IfOk result (λ taken. taken.bytes ≡ bytes) }
    ensures no_fault { keeper_failed result ≡ false }
{
    match read_block(alloc, cid, bytes.as_slice()) {
        Ok(block) => Ok(Taken { block, bytes }),
        Err(BlockError::Damaged(_)) => Ok(found),
        Err(BlockError::Memory) => Err(KeepError::Memory),
    }
}
