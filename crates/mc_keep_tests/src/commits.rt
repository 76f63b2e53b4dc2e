// Commits of groups of blocks into a keeper in memory.
use crate::blocks::{add, element, no_delta, process, store_bytes, take_up};
use crate::shown::{has_blocks, has_front, has_head, has_keys, has_rows, has_value};
use crate::trials::{Trial, passes, passes_over};
use mc_base::{Bytes, Cid, Counted, List, Text};
use mc_block::write_block;
use mc_keep::{KeepError, Keeper};
use mc_keep_mem::FaultPlan;
use mc_model::{Tomb, id_of};
use std::alloc::{AllocError, Global};
use std::sync::Wait;
use std::test::Fail;

// Those of a block of priority 2 that hides the key in a block.
fn tombstone(alloc: Global, cid: &Cid) -> Result<Bytes, AllocError> {
    let mut delta = no_delta(alloc, 2);
    delta.tombstones.push(Tomb {
        key: Text::from_text(alloc, "/k")?,
        id: id_of(alloc, cid)?,
    })?;
    Ok(write_block(alloc, &[], &delta)?.bytes)
}

// Those of a block that links to another one.
fn link(alloc: Global, cid: Cid, priority: u64) -> Result<Bytes, AllocError> {
    let delta = no_delta(alloc, priority);
    Ok(write_block(alloc, &[cid], &delta)?.bytes)
}

// The three blocks of which the last hides the second, taken up in this order or with the last first.
fn hides_later<K: Keeper + Drop>(keeper: K, alloc: Global) -> Result<bool, KeepError> {
    let mut keeper = keeper;
    let kept = take_up(&mut keeper, alloc, element(alloc, 1)?)?;
    let hidden = take_up(&mut keeper, alloc, element(alloc, 2)?)?;
    let before = has_value(&mut keeper, alloc, 1, 2)?;
    let hiding = take_up(&mut keeper, alloc, tombstone(alloc, &hidden)?)?;
    Ok(
        before
            && has_value(&mut keeper, alloc, 1, 1)?
            && has_blocks(&mut keeper, alloc, &[kept, hidden, hiding])?
            && has_rows(&mut keeper, alloc, &kept, &hidden)?
            && has_keys(&mut keeper, alloc)?,
    )
}

fn hides_before<K: Keeper + Drop>(keeper: K, alloc: Global) -> Result<bool, KeepError> {
    let mut keeper = keeper;
    let hidden = Cid::of(element(alloc, 2)?.as_slice());
    take_up(&mut keeper, alloc, tombstone(alloc, &hidden)?)?;
    take_up(&mut keeper, alloc, element(alloc, 2)?)?;
    take_up(&mut keeper, alloc, element(alloc, 1)?)?;
    has_value(&mut keeper, alloc, 1, 1)
}

// The bytes of a node of one link, to the block of no bytes, without data.
fn link_alone(alloc: Global) -> Result<Bytes, AllocError> {
    let mut bytes = Bytes::from_slice(alloc, &[0x12, 0x2a, 0x0a, 0x24])?;
    bytes.extend_from_slice(&Cid::of(&[]).bytes())?;
    bytes.extend_from_slice(&[0x12, 0x00, 0x18, 0x00])?;
    Ok(bytes)
}

// Whether another thread's desk reads the block, and finds no other.
fn has_peer_block<W: Wait, K: Keeper>(
    rt: &W,
    keeper: &mut K,
    alloc: Global,
    cid: &Cid,
) -> Result<bool, KeepError>
where
    K::Desk: Drop,
{
    let mut desk = keeper.desk(alloc)?;
    let Some(bytes) = keeper.peer_block(alloc, &mut desk, cid, rt)? else {
        return Ok(false);
    };
    let none = keeper.peer_block(alloc, &mut desk, &Cid([0; 32]), rt)?;
    Ok(Cid::of(bytes.as_slice()) == *cid && none.is_none() && desk.faults() == 0)
}

// A link to a block that comes later.
fn closes_a_gap<W: Wait, K: Keeper + Drop>(
    rt: &W,
    keeper: K,
    alloc: Global,
) -> Result<bool, KeepError>
where
    K::Desk: Drop,
{
    let mut keeper = keeper;
    let empty = Cid::of(&[]);
    let first = take_up(&mut keeper, alloc, link_alone(alloc)?)?;
    let open = has_front(&mut keeper, 1, true)? && keeper.linked(&empty)?;
    take_up(&mut keeper, alloc, Bytes::new(alloc))?;
    Ok(
        open && has_front(&mut keeper, 0, false)?
            && has_head(&mut keeper, alloc, first, 0)?
            && !keeper.linked(&first)?
            && has_peer_block(rt, &mut keeper, alloc, &first)?,
    )
}

// A chain of stored blocks, each linking to the one before, from the last to the first.
fn chain<K: Keeper>(keeper: &mut K, alloc: Global, length: u64) -> Result<List<Cid>, KeepError> {
    let mut cids = List::new(alloc);
    let mut last = store_bytes(keeper, alloc, element(alloc, 0)?)?;
    add(&mut cids, last)?;
    for number in 1..length {
        last = store_bytes(keeper, alloc, link(alloc, last, number)?)?;
        add(&mut cids, last)?;
    }
    let mut cids = cids.into_vec();
    cids.reverse();
    Ok(List::from_vec(cids))
}

// Processes a chain backwards in groups. Before the last group its last block is the one head, and the one gap is the
// block that comes next.
fn closes_a_chain<K: Keeper + Drop>(
    keeper: K,
    alloc: Global,
    group: usize,
) -> Result<bool, KeepError> {
    let mut keeper = keeper;
    if group == 0 {
        return Ok(false);
    }
    let cids = chain(&mut keeper, alloc, 100)?;
    let cids = cids.as_slice();
    let mut done: usize = 0;
    for part in cids.chunks(group) {
        done = done.saturating_add(part.len());
        let gaps = process(&mut keeper, alloc, part, true)?;
        let open = done < cids.len();
        if gaps != u64::from(open)
            || !has_front(&mut keeper, gaps, open)?
            || !has_head(&mut keeper, alloc, cids[0], 99)?
        {
            return Ok(false);
        }
    }
    Ok(done == 100 && keeper.summary()?.processed == 100)
}

// The first commit fails before its effect, and the third after it, and none other.
fn fails_as_planned<K: Keeper + Drop>(keeper: K, alloc: Global) -> Result<bool, KeepError> {
    let mut keeper = keeper;
    let cid = Cid::of(element(alloc, 1)?.as_slice());
    let first = store_bytes(&mut keeper, alloc, element(alloc, 1)?).is_err();
    let not_stored = !keeper.stored(&cid)? && keeper.faults() == 1;
    store_bytes(&mut keeper, alloc, element(alloc, 1)?)?;
    let third = process(&mut keeper, alloc, &[cid], true).is_err();
    let processed = keeper.position(&cid)? == Some(0) && keeper.faults() == 2;
    take_up(&mut keeper, alloc, element(alloc, 2)?)?;
    Ok(first && not_stored && third && processed && keeper.faults() == 2)
}

// By this plan they do so.
fn failing(alloc: Global) -> Result<FaultPlan, AllocError> {
    let mut plan = FaultPlan::nothing(alloc);
    plan.commits_before.push(1)?;
    plan.commits_after.push(3)?;
    Ok(plan)
}

// What is tried here.
#[derive(Clone, Copy)]
enum Commits {
    HideLater,
    HideBefore,
    CloseGap,
    CloseChain { group: usize },
    FailAsPlanned,
}

impl Trial for Commits {
    fn passes<K: Keeper + Drop, W: Wait>(
        self,
        alloc: Global,
        keeper: K,
        wait: &W,
    ) -> Result<bool, Fail>
    where
        K::Desk: Drop,
    {
        let answer = match self {
            Commits::HideLater => hides_later(keeper, alloc),
            Commits::HideBefore => hides_before(keeper, alloc),
            Commits::CloseGap => closes_a_gap(wait, keeper, alloc),
            Commits::CloseChain { group } => closes_a_chain(keeper, alloc, group),
            Commits::FailAsPlanned => fails_as_planned(keeper, alloc),
        };
        Ok(answer?)
    }
}

#[test]
fn a_tombstone_hides_its_block_alone(rt: HostRuntime) -> Result<(), Fail> {
    assert!(rt; passes(Commits::HideLater, rt.alloc(), &rt)?);
    Ok(())
}

#[test]
fn a_tombstone_hides_what_comes_later(rt: HostRuntime) -> Result<(), Fail> {
    assert!(rt; passes(Commits::HideBefore, rt.alloc(), &rt)?);
    Ok(())
}

#[test]
fn a_gap_is_closed(rt: HostRuntime) -> Result<(), Fail> {
    assert!(rt; passes(Commits::CloseGap, rt.alloc(), &rt)?);
    Ok(())
}

#[test]
fn a_chain_backwards(rt: HostRuntime) -> Result<(), Fail> {
    for group in [1, 7] {
        assert!(rt;
            passes(Commits::CloseChain { group }, rt.alloc(), &rt)?,
            "{group}"
        );
    }
    Ok(())
}

#[test]
fn planned_commits_fail(rt: HostRuntime) -> Result<(), Fail> {
    let alloc = rt.alloc();
    assert!(rt; passes_over(Commits::FailAsPlanned, alloc, failing(alloc)?, &rt)?);
    Ok(())
}
