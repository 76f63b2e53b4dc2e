// Replicas that run over a keeper, and the blocks that they hear of.
ghost use Rattle.std.specs.Prelude.{◌≡◌, false, IfOk, IfSome};
ghost use Rattle.mc_fetch.specs.Fits.{FoundHas};
ghost use Rattle.mc_model.specs.State.{HasSoundMark};

use mc_base::{Bytes, Cid};
use mc_block::write_block;
use mc_cast::write_cast;
use mc_core::{CoreError, Replica};
use mc_fetch::{Delivered, Found};
use mc_keep::Keeper;
use mc_keep_tests::{element, no_delta};
use std::alloc::{AllocError, Global};

/// The bytes of a block that links to this one.
pub fn link(alloc: Global, cid: Cid, priority: u64) -> Result<Bytes, AllocError> {
    Ok(write_block(alloc, &[cid], &no_delta(alloc, priority))?.bytes)
}

/// The identifiers of a chain of three blocks: the first links to none, and each other one to the one before.
#[derive(Clone, Copy)]
pub struct Chain {
    /// That of the block without a link.
    pub first: Cid,
    /// That of the one that links to it.
    pub second: Cid,
    /// That of the last one.
    pub third: Cid,
}

/// The chain of the examples.
pub fn make_chain(alloc: Global) -> Result<Chain, AllocError> {
    let first = Cid::of(element(alloc, 1)?.as_slice());
    let second = Cid::of(link(alloc, first, 2)?.as_slice());
    let third = Cid::of(link(alloc, second, 3)?.as_slice());
    Ok(Chain {
        first,
        second,
        third,
    })
}

/// The replica of this keeper, which runs.
pub fn opened<K: Keeper + Drop>(alloc: Global, keeper: K) -> Result<Replica<K>, CoreError>
    requires { IfSome (K.told keeper) HasSoundMark }
    ensures { IfOk result (λ replica. replica.stopped ≡ false) }
{
    match Replica::open(alloc, keeper) {
        Ok(replica) => Ok(replica),
        Err(_) => Err(CoreError::KeeperFault),
    }
}

/// Whether the replica runs and has processed so many blocks.
pub fn has_processed<K: Keeper>(replica: &Replica<K>, count: u64) -> bool {
    match replica.report() {
        Ok(report) => report.processed == count,
        Err(_) => false,
    }
}

/// The replica hears of this block. Answers how many it wants then that it did not want before.
pub fn hears<K: Keeper>(
    replica: &mut Replica<K>,
    alloc: Global,
    cid: Cid,
) -> Result<u64, CoreError> {
    let message = write_cast(alloc, &[cid])?;
    Ok(replica.hear(alloc, message.as_slice())?.queued)
}

/// What was found under an identifier: these bytes, where they have its digest.
pub fn found_for(cid: &Cid, bytes: Bytes) -> Found
    ensures { FoundHas cid.now result }
{
    if Cid::of(bytes.as_slice()) == *cid {
        return Found::Bytes(bytes);
    }
    Found::Missing
}

/// Delivers these bytes for the first block that waits.
pub fn fetches<K: Keeper>(
    replica: &mut Replica<K>,
    alloc: Global,
    bytes: Bytes,
) -> Result<Delivered, CoreError> {
    let Some(job) = replica.next_job(alloc)? else {
        return Ok(Delivered::Known);
    };
    let found = found_for(&job.cid, bytes);
    replica.deliver(alloc, job, found)
}

/// A replica without a block hears of the last of the chain, and processes it alone.
pub fn last_alone<K: Keeper + Drop>(
    replica: &mut Replica<K>,
    alloc: Global,
    chain: Chain,
) -> Result<bool, CoreError> {
    let queued = hears(replica, alloc, chain.third)?;
    let again = hears(replica, alloc, chain.third)?;
    let delivered = fetches(replica, alloc, link(alloc, chain.second, 3)?)?;
    Ok(queued == 1 && again == 0 && delivered == Delivered::Processed { position: 0 })
}
