// Blocks that a replica makes.
ghost use Rattle.mc_keep.specs.Calls.{Reads};
ghost use Rattle.std.specs.Prelude.{◌≡◌, ◌≤◌, [], None, Some, Ok, true, false, IfOk, IfSome, IfErr, OnOk, length};
ghost use Rattle.std.specs.List.{list_all};
ghost use Rattle.std.specs.Result.{is_err};
ghost use Rattle.mc_model.specs.Front.{is_among};
ghost use Rattle.mc_model.specs.Kept.{processed, is_stored};
ghost use Rattle.mc_model.specs.Made.{made_bytes, made_cid, next_priority};
ghost use Rattle.mc_model.specs.Offer.{block_max, offer};
ghost use Rattle.mc_model.specs.declared.layout.Layout.TheVariants.{Two};
ghost use Rattle.mc_keep.specs.Causes.{IfTold};
ghost use Rattle.mc_write.specs.Pairs.{row_cids};
ghost use Rattle.mc_plan.specs.Exact.{front_of};
ghost use Rattle.mc_plan.specs.Uptakes.{IsShaped, uptake_rows};
ghost use Rattle.mc_plan.specs.Puts.{IsPlanned, next_links};
ghost use Rattle.mc_plan.specs.Refusals.{Is, IsDue, clash_refusal, is_fault, made_refusal, other_refusal};
ghost use Rattle.mc_plan.specs.Refusals.{priority_refusal, size_refusal};

use crate::CoreError;
use crate::sound::is_sound;
use crate::uptakes::{Uptake, uptake_of};
use mc_base::{Bytes, Cid, Failed, List};
use mc_block::write_block;
use mc_keep::{HeadRow, Keeper};
use mc_model::{Block, Delta};
use mc_write::next_priority;
use std::alloc::{AllocError, Global};

const BLOCK_MAX: usize = 1_048_576;

/// A block that was made, stored and processed.
#[derive(Clone, Copy, Debug, PartialEq, Eq)]
pub struct Written {
    /// Its content identifier.
    pub cid: Cid,
    /// The priority of its delta.
    pub priority: u64,
    /// Its position in the order of processing, from 0.
    pub position: u64,
}

/// The commits of a made block, with all their memory taken, and the answer for it.
#[derive(Drop)]
pub struct Planned {
    pub uptake: Uptake,
    pub written: Written,
}

// What the next block has over the heads.
#[derive(Drop)]
pub(crate) struct Next {
    pub(crate) links: List<Cid>,
    pub(crate) priority: u64,
}

// The links to the heads, and one more than their greatest height.
pub(crate) fn next_block<K: Keeper>(keeper: &mut K, alloc: Global) -> Result<Next, CoreError>
    ensures next { IfTold (K.told keeper.old) result (λ kept next.
        (next.links ≡ next_links kept) × (next.priority ≡ next_priority (processed kept))) }
    ensures left { IfTold (K.told keeper.old) result (λ kept next. priority_refusal kept ≡ None) }
    ensures front { front_of result ≡ None }
    ensures refused { IfSome (K.told keeper.old) (λ kept. IfErr result (IsDue (Is (priority_refusal kept)))) }
    ensures reads { Reads K.Keeper (is_fault result) keeper.old keeper.new }
{
    let heads = keeper.heads(alloc)?;
    let Some(priority) = next_priority(heads.as_slice()) else {
        return Err(CoreError::PriorityFull);
    };
    let links = cids_of(alloc, heads.as_slice())?;
    Ok(Next { links, priority })
}

pub(crate) fn cids_of(alloc: Global, heads: &[HeadRow]) -> Result<List<Cid>, AllocError>
    ensures { IfOk result (λ cids. cids ≡ row_cids heads.now) }
{
    let mut cids = List::with_capacity(alloc, heads.len())?;
    for head in heads {
        cids.push(head.cid)?;
    }
    Ok(cids)
}

fn check_size(bytes: &[u8]) -> Result<(), CoreError>
    ensures ok { OnOk result (size_refusal bytes.now ≡ None) }
    ensures front { front_of result ≡ None }
    ensures no_fault { is_fault result ≡ false }
    ensures refused { IfErr result (λ error. size_refusal bytes.now ≡ Some error) }
{
    if bytes.len() > BLOCK_MAX {
        return Err(CoreError::BlockTooLarge {
            len: bytes.len() as u64,
        });
    }
    Ok(())
}

pub(crate) fn is_processed<K: Keeper>(keeper: &mut K, cid: &Cid) -> Result<bool, Failed>
    ensures found { IfTold (K.told keeper.old) result (λ kept found. found ≡ is_among kept.order cid.now) }
    ensures reads { Reads K.Keeper (is_err result) keeper.old keeper.new }
{
    Ok(keeper.position(cid)?.is_some())
}

// Refuses bytes where other ones are stored.
fn check_same(cid: &Cid, other: &[u8], bytes: &[u8]) -> Result<(), CoreError>
    ensures ok { OnOk result (other_refusal cid.now bytes.now (Some other.now) ≡ None) }
    ensures front { front_of result ≡ None }
    ensures refused { IfErr result (λ error. other_refusal cid.now bytes.now (Some other.now) ≡ Some error) }
{
    if other != bytes {
        return Err(CoreError::Clash { cid: *cid });
    }
    Ok(())
}

// Whether the block is stored already, where it doesn't clash.
pub(crate) fn check_clash<K: Keeper>(
    keeper: &mut K,
    alloc: Global,
    cid: &Cid,
    bytes: &[u8],
) -> Result<bool, CoreError>
    ensures known { IfTold (K.told keeper.old) result (λ kept known. known ≡ is_stored kept.graph cid.now) }
    ensures allowed { IfTold (K.told keeper.old) result (λ kept known. clash_refusal kept cid.now bytes.now ≡ None) }
    ensures front { front_of result ≡ None }
    ensures refused { IfSome (K.told keeper.old) (λ kept.
        IfErr result (IsDue (Is (clash_refusal kept cid.now bytes.now)))) }
    ensures reads { Reads K.Keeper (is_fault result) keeper.old keeper.new }
{
    is_sound(keeper);
    let Some(other) = keeper.block(alloc, cid)? else {
        return Ok(false);
    };
    if is_processed(keeper, cid)? {
        return Err(CoreError::Clash { cid: *cid });
    }
    check_same(cid, other.as_slice(), bytes)?;
    Ok(true)
}

// Plans to take up the block with these links and this delta, and takes all the memory that it needs.
pub(crate) fn plan_made<K: Keeper>(
    keeper: &mut K,
    alloc: Global,
    links: List<Cid>,
    delta: Delta,
    whole: bool,
) -> Result<Planned, CoreError>
    requires two { K.layout keeper.old ≡ Two }
    requires linked { IfSome (K.told keeper.old) (λ kept. list_all (is_among kept.order) links ≡ true) }
    ensures planned { IfTold (K.told keeper.old) result (λ kept planned. IsPlanned kept whole links delta planned) }
    ensures front { front_of result ≡ None }
    ensures refused { IfSome (K.told keeper.old) (λ kept. IfErr result (IsDue (Is (made_refusal kept links delta)))) }
    ensures shape { IfOk result (λ planned. IsShaped planned.uptake) }
    ensures links { IfOk result (λ planned. planned.uptake.after.links ≡ []) }
    ensures same { IfOk result (λ planned. planned.uptake.after.cid ≡ planned.written.cid) }
    ensures room { IfOk result (λ planned. uptake_rows planned.uptake ≤ K.spare keeper.new) }
    ensures reads { Reads K.Keeper (is_fault result) keeper.old keeper.new }
{
    let made = write_block(alloc, links.as_slice(), &delta)?;
    let block = Block {
        cid: made.cid,
        links,
        delta,
    };
    plan_written(keeper, alloc, &block, made.bytes, whole)
}

// The same of a block whose bytes are written.
fn plan_written<K: Keeper>(
    keeper: &mut K,
    alloc: Global,
    block: &Block,
    bytes: Bytes,
    whole: bool,
) -> Result<Planned, CoreError>
    requires two { K.layout keeper.old ≡ Two }
    requires linked { IfSome (K.told keeper.old) (λ kept. list_all (is_among kept.order) block.now.links ≡ true) }
    requires bytes { bytes ≡ made_bytes block.now.links block.now.delta }
    requires cid { block.now.cid ≡ made_cid block.now.links block.now.delta }
    requires good { length bytes ≤ block_max → offer block.now.cid bytes ≡ Ok block.now }
    ensures planned { IfTold (K.told keeper.old) result (λ kept planned.
        IsPlanned kept whole block.now.links block.now.delta planned) }
    ensures front { front_of result ≡ None }
    ensures refused { IfSome (K.told keeper.old) (λ kept.
        IfErr result (IsDue (Is (made_refusal kept block.now.links block.now.delta)))) }
    ensures shape { IfOk result (λ planned. IsShaped planned.uptake) }
    ensures links { IfOk result (λ planned. planned.uptake.after.links ≡ []) }
    ensures same { IfOk result (λ planned. planned.uptake.after.cid ≡ planned.written.cid) }
    ensures room { IfOk result (λ planned. uptake_rows planned.uptake ≤ K.spare keeper.new) }
    ensures reads { Reads K.Keeper (is_fault result) keeper.old keeper.new }
{
    check_size(bytes.as_slice())?;
    let known = match check_clash(keeper, alloc, &block.cid, bytes.as_slice()) {
        Ok(known) => known,
        Err(error) => return Err(error),
    };
    let position = keeper.summary()?.processed;
    let uptake = uptake_of(keeper, alloc, block, bytes, known, List::new(alloc), whole)?;
    let written = Written {
        cid: block.cid,
        priority: block.delta.priority,
        position,
    };
    Ok(Planned { uptake, written })
}
