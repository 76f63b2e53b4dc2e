// Storms over a keeper in memory.
ghost use Rattle.std.specs.Prelude.{IfSome};
ghost use Rattle.mc_model.specs.State.{HasSoundMark};

use mc_core::{CoreError, Report};
use mc_core_tests::{has_processed, opened};
use mc_keep::{Fused, Keeper};
use mc_keep_tests::empty;
use mc_storm::{StormError, Stormed};
use mc_writers::storm;
use std::alloc::Global;
use std::sync::Wait;
use std::test::Fail;
use std::thread::Threads;

fn has_stopped(report: &Result<Report, CoreError>) -> bool {
    match report {
        Ok(_) => false,
        Err(error) => *error == CoreError::Stopped,
    }
}

// Sixteen writers of a thousand, of whose puts each makes a block and is given by the get after it.
fn storms<K: Keeper + Drop + Send + Sync, R: Threads + Wait + Sync>(
    keeper: K,
    alloc: Global,
    rt: &R,
) -> Result<bool, CoreError>
where
    K::Desk: Send,
    requires { IfSome (K.told keeper) HasSoundMark }
{
    let replica = opened(alloc, keeper)?;
    let (left, answer) = storm(alloc, replica, 16, 1000, rt, rt);
    let all = Stormed {
        made: 16_000,
        same: 16_000,
    };
    Ok(answer == Ok(all) && has_processed(&left, 16_000))
}

// The fifth commit fails: the storm ends, the replica has stopped, and a second storm is refused.
fn ends_at_a_fault<K: Keeper + Drop + Send + Sync, R: Threads + Wait + Sync>(
    keeper: K,
    alloc: Global,
    rt: &R,
) -> Result<bool, CoreError>
where
    K::Desk: Send,
    requires { IfSome (K.told keeper) HasSoundMark }
{
    let mut replica = opened(alloc, Fused::wrap(keeper))?;
    replica.arm(5, false);
    let (left, answer) = storm(alloc, replica, 2, 10, rt, rt);
    let (left, again) = storm(alloc, left, 2, 10, rt, rt);
    Ok(
        answer == Err(StormError::KeeperFault)
            && again == Err(StormError::Stopped)
            && has_stopped(&left.report()),
    )
}

#[test]
fn sixteen_writers_put_a_thousand_each(rt: HostRuntime) -> Result<(), Fail> {
    let alloc = rt.alloc();
    assert!(rt; storms(empty(alloc)?, alloc, &rt)?);
    Ok(())
}

#[test]
fn a_fuse_ends_a_storm(rt: HostRuntime) -> Result<(), Fail> {
    let alloc = rt.alloc();
    assert!(rt; ends_at_a_fault(empty(alloc)?, alloc, &rt)?);
    Ok(())
}
