// Blocks that a replica takes in together.
ghost use Rattle.std.specs.Prelude.{IfSome};
ghost use Rattle.mc_model.specs.State.{HasSoundMark};

use crate::running::{hears, opened};
use mc_base::Cid;
use mc_block::{Verified, verify, write_block};
use mc_core::{CoreError, Grouped, Replica};
use mc_keep::{Fused, Keeper};
use mc_keep_tests::{Trial, no_delta, passes};
use std::alloc::{AllocError, Global};
use std::sync::Wait;
use std::test::Fail;

// A block without links whose delta has this priority.
fn block_of(alloc: Global, priority: u64) -> Result<Verified, AllocError> {
    let made = write_block(alloc, &[], &no_delta(alloc, priority))?;
    let cid: Cid = made.cid;
    match verify(alloc, &cid, made.bytes) {
        Ok(item) => Ok(item),
        Err(_) => Err(AllocError),
    }
}

// A block is heard of, and its job begins.
fn begins<K: Keeper>(replica: &mut Replica<K>, alloc: Global, cid: Cid) -> Result<bool, CoreError> {
    hears(replica, alloc, cid)?;
    Ok(replica.next_job(alloc)?.is_some())
}

// Adds blocks of the priorities below this one to an inbox, and tells how many were taken.
pub(crate) fn adds<K: Keeper>(
    replica: &mut Replica<K>,
    alloc: Global,
    count: u64,
) -> Result<u64, CoreError> {
    for priority in 0..count {
        let item = block_of(alloc, priority)?;
        replica.inbox_reserve()?;
        if replica.inbox_add(item).is_err() {
            return Ok(priority);
        }
    }
    Ok(count)
}

// The jobs of the blocks of the priorities below this one begin.
pub(crate) fn begin_all<K: Keeper>(
    replica: &mut Replica<K>,
    alloc: Global,
    count: u64,
) -> Result<bool, CoreError> {
    for priority in 0..count {
        let item = block_of(alloc, priority)?;
        if !begins(replica, alloc, item.cid)? {
            return Ok(false);
        }
    }
    Ok(true)
}

// Of three blocks in flight two are taken up by just two commits, and the third waits again; then the third commit
// fails, since the fuse was set to it.
fn takes_two<K: Keeper>(replica: &mut Replica<Fused<K>>, alloc: Global) -> Result<bool, CoreError> {
    let begun = begin_all(replica, alloc, 3)?;
    let added = adds(replica, alloc, 3)?;
    replica.arm(3, false);
    let grouped = replica.inbox_commit(alloc, 2)?;
    let left = replica.inbox_len();
    replica.inbox_give_back();
    let report = replica.report()?;
    let third = replica.put(alloc, "/k", &[1]);
    Ok(
        begun
            && added == 3
            && grouped
                == Grouped {
                    processed: 2,
                    known: 0,
                }
            && left == 1
            && report.processed == 2
            && report.counts.waiting == 1
            && report.counts.flight == 0
            && third == Err(CoreError::KeeperFault),
    )
}

// A block that stands in the inbox twice is taken up once, and one that is not in flight is not.
fn takes_once<K: Keeper>(replica: &mut Replica<K>, alloc: Global) -> Result<bool, CoreError> {
    let begun = begin_all(replica, alloc, 2)?;
    let first = adds(replica, alloc, 2)?;
    let again = adds(replica, alloc, 3)?;
    let grouped = replica.inbox_commit(alloc, 64)?;
    let none = replica.inbox_commit(alloc, 64)?;
    Ok(
        begun
            && first == 2
            && again == 3
            && grouped
                == Grouped {
                    processed: 2,
                    known: 3,
                }
            && none
                == Grouped {
                    processed: 0,
                    known: 0,
                },
    )
}

// The 65th block is handed back.
fn holds_64<K: Keeper>(replica: &mut Replica<K>, alloc: Global) -> Result<bool, CoreError> {
    let added = adds(replica, alloc, 65)?;
    Ok(added == 64 && replica.inbox_len() == 64)
}

fn two_of_three<K: Keeper + Drop>(keeper: K, alloc: Global) -> Result<bool, CoreError>
    requires { IfSome (K.told keeper) HasSoundMark }
{
    let mut replica = opened(alloc, Fused::wrap(keeper))?;
    takes_two(&mut replica, alloc)
}

fn each_once<K: Keeper + Drop>(keeper: K, alloc: Global) -> Result<bool, CoreError>
    requires { IfSome (K.told keeper) HasSoundMark }
{
    let mut replica = opened(alloc, keeper)?;
    takes_once(&mut replica, alloc)
}

fn full<K: Keeper + Drop>(keeper: K, alloc: Global) -> Result<bool, CoreError>
    requires { IfSome (K.told keeper) HasSoundMark }
{
    let mut replica = opened(alloc, keeper)?;
    holds_64(&mut replica, alloc)
}

// What is tried here.
#[derive(Clone, Copy)]
enum Inboxes {
    TwoOfThree,
    EachOnce,
    Full,
}

impl Trial for Inboxes {
    fn passes<K: Keeper + Drop, W: Wait>(
        self,
        alloc: Global,
        keeper: K,
        _wait: &W,
    ) -> Result<bool, Fail>
    where
        K::Desk: Drop,
    {
        let answer = match self {
            Inboxes::TwoOfThree => two_of_three(keeper, alloc),
            Inboxes::EachOnce => each_once(keeper, alloc),
            Inboxes::Full => full(keeper, alloc),
        };
        Ok(answer?)
    }
}

#[test]
fn two_blocks_of_an_inbox_take_two_commits(rt: HostRuntime) -> Result<(), Fail> {
    assert!(rt; passes(Inboxes::TwoOfThree, rt.alloc(), &rt)?);
    Ok(())
}

#[test]
fn a_block_of_an_inbox_is_taken_up_once(rt: HostRuntime) -> Result<(), Fail> {
    assert!(rt; passes(Inboxes::EachOnce, rt.alloc(), &rt)?);
    Ok(())
}

#[test]
fn an_inbox_holds_64(rt: HostRuntime) -> Result<(), Fail> {
    assert!(rt; passes(Inboxes::Full, rt.alloc(), &rt)?);
    Ok(())
}
