// The value of a key as the writer of a block saw it.
ghost use Rattle.std.specs.Prelude.{◌≡◌, false, true, List as ListOf, None, IfErr, IfOk, IfSome};
ghost use Rattle.mc_keep.specs.Causes.{IfTold};
ghost use Rattle.mc_model.specs.Front.{is_processed};
ghost use Rattle.mc_model.specs.Kept.{processed};
ghost use Rattle.mc_core.specs.Exact.{DecidesAlone, IfRefused, RestSame, front_of, stop_front};
ghost use Rattle.mc_core.specs.Refusals.{is_fault};
ghost use Rattle.mc_core.specs.Words.{Answers, Continues, TellsSame};
ghost use Rattle.mc_past.specs.Looks.{Looks};
ghost use Rattle.mc_past.specs.Past.{IsFoundBelow};
ghost use Rattle.mc_model.specs.declared.block.Block.{Block as B};
ghost use Rattle.mc_past.specs.Pasts.{IsWalkOf, PastFits};
ghost use Rattle.mc_past.specs.Walks.{HasWalked, KeepsTo, WalksOn};

use crate::past::{Past, Walk};
use crate::reads::{has_processed, has_stopped, processed_block};
use mc_base::{Bytes, Cid};
use mc_core::{CoreError, Replica};
use mc_keep::Keeper;
use mc_model::kept_is_durable;
use mc_view::{View, views_are_reach};
use std::alloc::{AllocError, Global};

/// The value of a key as the writer of a processed block saw it, over the blocks that are reached from it: the inner
/// option is none where the key has no value there, and the outer one where the identifier is not processed. The key is
/// any text. It reads each block that is reached, once, and keeps their values in memory, in `past`, where the next read
/// below the same block finds them. Refusals: `Stopped`.
pub fn value_below<K: Keeper>(
    replica: &mut Replica<K>,
    past: &mut Past,
    alloc: Global,
    cid: &Cid,
    key: &str,
) -> Result<Option<Option<Bytes>>, CoreError>
    requires fits { PastFits (K.told replica.old.keeper) past.old }
    ensures call { Answers K.Keeper (λ kept found.
        IsFoundBelow cid.now key.now (processed kept) found) result replica.old replica.new }
    ensures keeps { Continues K.Keeper (is_fault result) replica.old replica.new }
    ensures front { front_of result ≡ stop_front replica.old.stopped None }
    ensures seen { IfErr result DecidesAlone }
    ensures rest { RestSame replica.old replica.new }
    ensures same { TellsSame K.Keeper replica.old replica.new }
    ensures fits { PastFits (K.told replica.old.keeper) past.new }
{
    kept_is_durable();
    if has_stopped(replica) {
        return Err(CoreError::Stopped);
    }
    found_below(replica, past, alloc, cid, key)
}

// The value in a replica that runs.
fn found_below<K: Keeper>(
    replica: &mut Replica<K>,
    past: &mut Past,
    alloc: Global,
    cid: &Cid,
    key: &str,
) -> Result<Option<Option<Bytes>>, CoreError>
    requires runs { replica.old.stopped ≡ false }
    requires fits { PastFits (K.told replica.old.keeper) past.old }
    ensures found { IfTold (K.told replica.old.keeper) result (λ kept found.
        IsFoundBelow cid.now key.now (processed kept) found) }
    ensures fits { PastFits (K.told replica.old.keeper) past.new }
    ensures refused { IfRefused result ⊥ }
    ensures looks { Looks K.Keeper (is_fault result) replica.old replica.new }
{
    match has_processed(replica, cid) {
        Ok(true) => value_at(replica, past, alloc, cid, key),
        Ok(false) => Ok(None),
        Err(error) => Err(error),
    }
}

// The value over the blocks that are reached.
fn value_at<K: Keeper>(
    replica: &mut Replica<K>,
    past: &mut Past,
    alloc: Global,
    cid: &Cid,
    key: &str,
) -> Result<Option<Option<Bytes>>, CoreError>
    requires runs { replica.old.stopped ≡ false }
    requires fits { PastFits (K.told replica.old.keeper) past.old }
    ensures found { IfTold (K.told replica.old.keeper) result (λ kept found.
        is_processed (processed kept) cid.now ≡ true → IsFoundBelow cid.now key.now (processed kept) found) }
    ensures fits { PastFits (K.told replica.old.keeper) past.new }
    ensures refused { IfRefused result ⊥ }
    ensures looks { Looks K.Keeper (is_fault result) replica.old replica.new }
{
    match walk(replica, alloc, cid, past.walk.take()) {
        Ok(view) => {
            let value = view.get(alloc, key);
            past.walk = Some(Walk { start: *cid, view });
            match value {
                Ok(value) => Ok(Some(value)),
                Err(AllocError) => Err(CoreError::Memory),
            }
        }
        Err(error) => Err(error),
    }
}

// A walk from a block, which has visited all that are reached; it goes on with the last one where that is from the same
// block. No keeper has as many blocks as would end it before.
fn walk<K: Keeper>(
    replica: &mut Replica<K>,
    alloc: Global,
    cid: &Cid,
    last: Option<Walk>,
) -> Result<View, CoreError>
    requires runs { replica.old.stopped ≡ false }
    requires fits { IfSome (K.told replica.old.keeper) (λ kept. IfSome last (IsWalkOf (processed kept))) }
    ensures walked { IfTold (K.told replica.old.keeper) result (λ kept view.
        HasWalked (processed kept) cid.now view) }
    ensures refused { IfRefused result ⊥ }
    ensures looks { Looks K.Keeper (is_fault result) replica.old replica.new }
{
    replica.is_sound();
    let mut view = match begin(alloc, cid, last) {
        Ok(view) => view,
        Err(AllocError) => return Err(CoreError::Memory),
    };
    let mut left = u64::MAX;
    while left > 0 {
        match step(replica, alloc, &mut view) {
            Ok(true) => left -= 1,
            Ok(false) => return Ok(view),
            Err(error) => return Err(error),
        }
    }
    Err(CoreError::Memory)
}

// The last walk where it is from this block, with nothing skipped any more, or else a new one.
fn begin(alloc: Global, cid: &Cid, last: Option<Walk>) -> Result<View, AllocError>
    ensures { IfOk result (λ view. (blocks : ListOf B) → IfSome last (IsWalkOf blocks) → KeepsTo blocks cid.now view) }
{
    let Some(Walk { start, mut view }) = last else {
        return View::new(alloc, *cid);
    };
    if start != *cid {
        return View::new(alloc, *cid);
    }
    view.again();
    Ok(view)
}

// Visits or skips what is next, and says whether there was something.
fn step<K: Keeper>(
    replica: &mut Replica<K>,
    alloc: Global,
    view: &mut View,
) -> Result<bool, CoreError>
    requires runs { replica.old.stopped ≡ false }
    ensures walks { IfTold (K.told replica.old.keeper) result (λ kept some.
        WalksOn some (processed kept) view.old view.new) }
    ensures refused { IfRefused result ⊥ }
    ensures looks { Looks K.Keeper (is_fault result) replica.old replica.new }
{
    views_are_reach();
    let Some(cid) = view.next() else {
        return Ok(false);
    };
    match processed_block(replica, alloc, &cid) {
        Ok(Some(block)) => match view.visit(alloc, &block) {
            Ok(()) => Ok(true),
            Err(AllocError) => Err(CoreError::Memory),
        },
        Ok(None) => {
            view.skip();
            Ok(true)
        }
        Err(error) => Err(error),
    }
}
