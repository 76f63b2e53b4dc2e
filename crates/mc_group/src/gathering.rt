// Blocks are taken out of an inbox, and it is found what becomes of each.
ghost use Rattle.std.specs.Prelude.{◌≡◌, ◌≤◌, ◌<◌, ◌+◌, ◌⊎◌, ◌++◌, ◌&&◌, [], true, false, not, Some, Ok, length, vec_capacity};
ghost use Rattle.std.specs.Prelude.{IfOk, IfSome, OnErr};
ghost use Rattle.std.specs.Option.{option_map};
ghost use Rattle.mc_keep.specs.Calls.{Reads};
ghost use Rattle.mc_keep.specs.Causes.{IfTold};
ghost use Rattle.mc_keep.specs.Plan.{is_fault as keeper_failed};
ghost use Rattle.mc_model.specs.Graph.{has};
ghost use Rattle.mc_model.specs.Kept.{bytes_at};
ghost use Rattle.mc_model.specs.Offer.{block_of, is_good};
ghost use Rattle.mc_queue.specs.Views.{shown};
ghost use Rattle.mc_group.specs.Gathering.{FateFits, IsGroup, IsGroupOver, IsNamed, is_known, items_of};

use crate::group::{Fate, Group};
use mc_base::Cid;
use mc_block::{BlockError, Verified, read_block};
use mc_inbox::Inbox;
use mc_keep::{KeepError, Keeper};
use mc_model::Block;
use mc_plan::is_sound;
use mc_queue::Queue;
use std::alloc::Global;

/// Takes blocks out of an inbox into an empty group, as many as the limit says, or all. On an error the group has those
/// that were taken out until then.
pub fn gather<K: Keeper>(
    keeper: &mut K,
    alloc: Global,
    queue: &Queue,
    inbox: &mut Inbox,
    limit: u64,
    group: &mut Group,
) -> Result<(), KeepError>
    requires none { (group.old.slots.items ≡ []) × (group.old.blocks.items ≡ []) × (group.old.cids.items ≡ []) }
    requires slots { limit ≤ vec_capacity group.old.slots }
    requires blocks { limit ≤ vec_capacity group.old.blocks }
    requires cids { limit ≤ vec_capacity group.old.cids }
    ensures group { IsGroup (shown queue.now).flight group.new.slots.items group.new.blocks.items group.new.cids.items }
    ensures over { IfSome (K.told keeper.old) (λ kept.
        IsGroupOver kept group.new.slots.items group.new.blocks.items) }
    ensures items { inbox.old.items ≡ items_of group.new.slots.items ++ inbox.new.items }
    ensures all { IfOk result (λ done. (length group.new.slots.items ≡ limit) ⊎ (inbox.new.items ≡ [])) }
    ensures few { length group.new.slots.items ≤ limit }
    ensures room { inbox.new.room ≡ inbox.old.room }
    ensures reads { Reads K.Keeper (keeper_failed result) keeper.old keeper.new }
{
    for _ in 0..limit {
        if !gather_one(keeper, alloc, queue, inbox, group)? {
            return Ok(());
        }
    }
    Ok(())
}

// Takes the first block out of an inbox into a group. False where there is none.
fn gather_one<K: Keeper>(
    keeper: &mut K,
    alloc: Global,
    queue: &Queue,
    inbox: &mut Inbox,
    group: &mut Group,
) -> Result<bool, KeepError>
    requires slots { length group.old.slots.items < vec_capacity group.old.slots }
    requires blocks { length group.old.slots.items < vec_capacity group.old.blocks }
    requires cids { length group.old.slots.items < vec_capacity group.old.cids }
    requires group { IsGroup (shown queue.now).flight group.old.slots.items group.old.blocks.items
        group.old.cids.items }
    ensures group { IsGroup (shown queue.now).flight group.new.slots.items group.new.blocks.items group.new.cids.items }
    ensures over { IfSome (K.told keeper.old) (λ kept.
        IsGroupOver kept group.old.slots.items group.old.blocks.items →
        IsGroupOver kept group.new.slots.items group.new.blocks.items) }
    ensures items { items_of group.old.slots.items ++ inbox.old.items
        ≡ items_of group.new.slots.items ++ inbox.new.items }
    ensures one { result ≡ Ok true → length group.new.slots.items ≡ length group.old.slots.items + 1 }
    ensures none { result ≡ Ok false → inbox.new.items ≡ [] }
    ensures few { result ≡ Ok false → group.new.slots.items ≡ group.old.slots.items }
    ensures back { OnErr result (group.new.slots.items ≡ group.old.slots.items) }
    ensures slots { vec_capacity group.new.slots ≡ vec_capacity group.old.slots }
    ensures blocks { vec_capacity group.new.blocks ≡ vec_capacity group.old.blocks }
    ensures cids { vec_capacity group.new.cids ≡ vec_capacity group.old.cids }
    ensures room { inbox.new.room ≡ inbox.old.room }
    ensures reads { Reads K.Keeper (keeper_failed result) keeper.old keeper.new }
{
    let fate = match inbox.first() {
        Some(item) => match fate_of(keeper, alloc, queue, group.cids.as_slice(), item) {
            Ok(fate) => fate,
            Err(error) => return Err(error),
        },
        None => return Ok(false),
    };
    let Some(item) = inbox.take() else {
        return Ok(false);
    };
    group.put(fate, item);
    Ok(true)
}

// What becomes of a block where these are in the group already.
fn fate_of<K: Keeper>(
    keeper: &mut K,
    alloc: Global,
    queue: &Queue,
    cids: &[Cid],
    item: &Verified,
) -> Result<Fate, KeepError>
    ensures known { IfOk result (λ fate. is_known fate
        ≡ not (has item.now.cid (shown queue.now).flight && not (has item.now.cid cids.now))) }
    ensures named { IfOk result (IsNamed item.now.cid) }
    ensures fits { IfTold (K.told keeper.old) result (λ kept. FateFits kept.graph item.now.cid) }
    ensures reads { Reads K.Keeper (keeper_failed result) keeper.old keeper.new }
{
    if !is_due(queue, cids, &item.cid) {
        return Ok(Fate::Known);
    }
    match stored_block(keeper, alloc, &item.cid) {
        Ok(Some(block)) => Ok(Fate::Held(block)),
        Ok(None) => Ok(Fate::New),
        Err(error) => Err(error),
    }
}

// Whether a block is in flight, and not among these.
fn is_due(queue: &Queue, cids: &[Cid], cid: &Cid) -> bool
    ensures { result ≡ (has cid.now (shown queue.now).flight && not (has cid.now cids.now)) }
{
    queue.in_flight(cid) && !is_in(cids, cid)
}

/// Whether the block is among these.
pub(crate) fn is_in(cids: &[Cid], cid: &Cid) -> bool
    ensures { result ≡ has cid.now cids.now }
{
    for other in cids {
        if cid == other {
            return true;
        }
    }
    false
}

// What is stored under an identifier, as a block.
fn stored_block<K: Keeper>(
    keeper: &mut K,
    alloc: Global,
    cid: &Cid,
) -> Result<Option<Block>, KeepError>
    ensures named { IfOk result (λ found. IfSome found (λ block. block.cid ≡ cid.now)) }
    ensures stored { IfTold (K.told keeper.old) result (λ kept found.
        found ≡ option_map (block_of cid.now) (bytes_at kept.graph cid.now)) }
    ensures reads { Reads K.Keeper (keeper_failed result) keeper.old keeper.new }
{
    is_sound(keeper);
    match keeper.block(alloc, cid) {
        Ok(Some(bytes)) => read_stored(alloc, cid, bytes.as_slice()),
        Ok(None) => Ok(None),
        Err(error) => Err(error),
    }
}

// Stored bytes as a block.
fn read_stored(alloc: Global, cid: &Cid, bytes: &[u8]) -> Result<Option<Block>, KeepError>
    ensures named { IfOk result (λ found. IfSome found (λ block. block.cid ≡ cid.now)) }
    ensures good { is_good cid.now bytes.now ≡ true →
        IfOk result (λ found. found ≡ Some (block_of cid.now bytes.now)) }
    ensures no_fault { keeper_failed result ≡ false }
{
    match read_block(alloc, cid, bytes) {
        Ok(block) => Ok(Some(block)),
        Err(BlockError::Damaged(_)) => Ok(None),
        Err(BlockError::Memory) => Err(KeepError::Memory),
    }
}
