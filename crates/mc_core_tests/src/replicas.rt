// One replica that hears, fetches, stops and repairs.
ghost use Rattle.std.specs.Prelude.{IfSome};
ghost use Rattle.mc_model.specs.State.{HasSoundMark};

use crate::running::{
    Chain, fetches, found_for, has_processed, hears, last_alone, link, make_chain, opened,
};
use mc_base::{Bytes, Cid, List};
use mc_block::{Verified, verify};
use mc_core::{CoreError, Replica, Settled, WalkStep};
use mc_fetch::Delivered;
use mc_keep::Keeper;
use mc_keep_tests::{Trial, element, passes};
use std::alloc::{AllocError, Global};
use std::sync::Wait;
use std::test::Fail;

// After a stop with a gap the walk finds it.
fn walks<K: Keeper>(replica: &mut Replica<K>, alloc: Global) -> Result<bool, CoreError> {
    let began = replica.walk_step(alloc)?;
    let visited = replica.walk_step(alloc)?;
    let ended = replica.walk_step(alloc)?;
    let idle = replica.walk_step(alloc)?;
    Ok(
        began == WalkStep::Begun
            && visited == WalkStep::Visited { position: 0 }
            && ended == WalkStep::Ended
            && idle == WalkStep::Idle,
    )
}

// Whether so many gaps are left, where every gap counts as wanted.
fn settles<K: Keeper>(replica: &Replica<K>, settled: Settled) -> Result<bool, CoreError> {
    if !replica.is_whole() {
        return Ok(false);
    }
    Ok(replica.settle()? == settled)
}

// The rest of the chain comes in.
fn rest_comes<K: Keeper>(
    replica: &mut Replica<K>,
    alloc: Global,
    chain: Chain,
) -> Result<bool, CoreError> {
    let second = fetches(replica, alloc, link(alloc, chain.first, 2)?)?;
    let first = fetches(replica, alloc, element(alloc, 1)?)?;
    let none = fetches(replica, alloc, element(alloc, 1)?)?;
    Ok(
        second == Delivered::Processed { position: 1 }
            && first == Delivered::Processed { position: 2 }
            && none == Delivered::Known,
    )
}

// Whether a replica that was stopped with the gap finds it, and is clean after the rest of the chain.
fn comes_clean<K: Keeper>(
    replica: &mut Replica<K>,
    alloc: Global,
    chain: Chain,
) -> Result<bool, CoreError> {
    Ok(
        walks(replica, alloc)?
            && settles(replica, Settled::Open { gaps: 1 })?
            && rest_comes(replica, alloc, chain)?
            && settles(replica, Settled::Clean)?,
    )
}

// The same from its keeper on. Whoever owns a replica has one way out with it, since each proves the dropping of all
// that it holds.
fn opens_and_comes_clean<K: Keeper + Drop>(
    keeper: K,
    alloc: Global,
    chain: Chain,
) -> Result<bool, CoreError>
    requires { IfSome (K.told keeper) HasSoundMark }
{
    let mut replica = opened(alloc, keeper)?;
    comes_clean(&mut replica, alloc, chain)
}

// A chain whose last block is processed alone before a stop is repaired.
fn repairs<K: Keeper + Drop>(keeper: K, alloc: Global) -> Result<bool, CoreError>
    requires { IfSome (K.told keeper) HasSoundMark }
{
    let chain = make_chain(alloc)?;
    let mut replica = opened(alloc, keeper)?;
    let alone = last_alone(&mut replica, alloc, chain);
    let clean = opens_and_comes_clean(replica.stop(), alloc, chain);
    Ok(alone? && clean?)
}

// What no offer has and what is damaged is wanted again when it is heard again, and after a requeue.
fn is_wanted_again<K: Keeper>(replica: &mut Replica<K>, alloc: Global) -> Result<bool, CoreError> {
    let damaged = Cid::of(b"no block");
    let queued = hears(replica, alloc, damaged)?;
    let missing = fetches(replica, alloc, element(alloc, 1)?)?;
    let again = hears(replica, alloc, damaged)?;
    let bad = fetches(replica, alloc, Bytes::from_slice(alloc, b"no block")?)?;
    replica.requeue();
    let counts = replica.report()?.counts;
    Ok(
        queued == 1
            && again == 1
            && missing == Delivered::Missing
            && matches!(bad, Delivered::Bad { .. })
            && counts.waiting == 1
            && counts.bad == 0,
    )
}

// The same from its keeper on.
fn wants_again<K: Keeper + Drop>(keeper: K, alloc: Global) -> Result<bool, CoreError>
    requires { IfSome (K.told keeper) HasSoundMark }
{
    let mut replica = opened(alloc, keeper)?;
    is_wanted_again(&mut replica, alloc)
}

// Whether there is a job, which is given back.
fn gives_one_back<K: Keeper>(replica: &mut Replica<K>, alloc: Global) -> Result<bool, CoreError> {
    let Some(first) = replica.next_job(alloc)? else {
        return Ok(false);
    };
    replica.give_back(first);
    Ok(true)
}

// Whether the block is known that comes after its job was recalled, and one waits then.
fn comes_late<K: Keeper>(replica: &mut Replica<K>, alloc: Global) -> Result<bool, CoreError> {
    let Some(late) = replica.next_job(alloc)? else {
        return Ok(false);
    };
    replica.recall();
    let found = found_for(&late.cid, element(alloc, 1)?);
    let known = replica.deliver(alloc, late, found)? == Delivered::Known;
    Ok(known && replica.report()?.counts.waiting == 1)
}

// A job that is given back is the next one again, one that is recalled, too, and what comes late is known.
fn job_comes_back<K: Keeper>(replica: &mut Replica<K>, alloc: Global) -> Result<bool, CoreError> {
    hears(replica, alloc, Cid::of(element(alloc, 1)?.as_slice()))?;
    Ok(
        gives_one_back(replica, alloc)?
            && comes_late(replica, alloc)?
            && fetches(replica, alloc, element(alloc, 1)?)? == Delivered::Processed { position: 0 },
    )
}

// The same from its keeper on.
fn gives_back<K: Keeper + Drop>(keeper: K, alloc: Global) -> Result<bool, CoreError>
    requires { IfSome (K.told keeper) HasSoundMark }
{
    let mut replica = opened(alloc, keeper)?;
    job_comes_back(&mut replica, alloc)
}

// Bytes that are a block, verified.
fn verified(alloc: Global, bytes: Bytes) -> Result<Verified, AllocError> {
    let cid = Cid::of(bytes.as_slice());
    match verify(alloc, &cid, bytes) {
        Ok(block) => Ok(block),
        Err(_) => Err(AllocError),
    }
}

// The second block of the chain, the first, and the second again.
fn three_blocks(alloc: Global, chain: Chain) -> Result<List<Verified>, AllocError> {
    let mut blocks = List::new(alloc);
    blocks.push(verified(alloc, link(alloc, chain.first, 2)?)?)?;
    blocks.push(verified(alloc, element(alloc, 1)?)?)?;
    blocks.push(verified(alloc, link(alloc, chain.first, 2)?)?)?;
    Ok(blocks)
}

// Whether a stored block has these bytes.
fn gives<K: Keeper>(
    replica: &mut Replica<K>,
    alloc: Global,
    cid: Cid,
    bytes: Bytes,
) -> Result<bool, CoreError> {
    match replica.block(alloc, &cid)? {
        Some(found) => Ok(found.as_slice() == bytes.as_slice()),
        None => Ok(false),
    }
}

// Of blocks that are kept the first of each identifier is stored, once, and none is processed.
fn is_kept<K: Keeper>(replica: &mut Replica<K>, alloc: Global) -> Result<bool, CoreError> {
    let chain = make_chain(alloc)?;
    let early = gives(replica, alloc, chain.first, element(alloc, 1)?)?;
    let kept = replica.keep(alloc, three_blocks(alloc, chain)?)?;
    let again = replica.keep(alloc, three_blocks(alloc, chain)?)?;
    let first = gives(replica, alloc, chain.first, element(alloc, 1)?)?;
    let second = gives(replica, alloc, chain.second, link(alloc, chain.first, 2)?)?;
    let all = first && second && has_processed(replica, 0);
    Ok(!early && kept == 2 && again == 0 && all)
}

fn keeps<K: Keeper + Drop>(keeper: K, alloc: Global) -> Result<bool, CoreError>
    requires { IfSome (K.told keeper) HasSoundMark }
{
    let mut replica = opened(alloc, keeper)?;
    is_kept(&mut replica, alloc)
}

// What is tried here.
#[derive(Clone, Copy)]
enum Replicas {
    Repair,
    WantAgain,
    GiveBack,
    Keep,
}

impl Trial for Replicas {
    fn passes<K: Keeper + Drop, W: Wait>(
        self,
        alloc: Global,
        keeper: K,
        _wait: &W,
    ) -> Result<bool, Fail>
    where
        K::Desk: Drop,
    {
        let answer = match self {
            Replicas::Repair => repairs(keeper, alloc),
            Replicas::WantAgain => wants_again(keeper, alloc),
            Replicas::GiveBack => gives_back(keeper, alloc),
            Replicas::Keep => keeps(keeper, alloc),
        };
        Ok(answer?)
    }
}

#[test]
fn a_chain_is_repaired(rt: HostRuntime) -> Result<(), Fail> {
    assert!(rt; passes(Replicas::Repair, rt.alloc(), &rt)?);
    Ok(())
}

#[test]
fn a_wanted_block_comes_again(rt: HostRuntime) -> Result<(), Fail> {
    assert!(rt; passes(Replicas::WantAgain, rt.alloc(), &rt)?);
    Ok(())
}

#[test]
fn a_job_comes_back(rt: HostRuntime) -> Result<(), Fail> {
    assert!(rt; passes(Replicas::GiveBack, rt.alloc(), &rt)?);
    Ok(())
}

#[test]
fn blocks_are_kept(rt: HostRuntime) -> Result<(), Fail> {
    assert!(rt; passes(Replicas::Keep, rt.alloc(), &rt)?);
    Ok(())
}
