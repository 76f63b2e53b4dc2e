// Keepers in memory that are made as planned.
use crate::memory::{numbers, read_plan};
use mc_base::{Counted, List};
use mc_keep::Keeper;
use mc_keep_mem::{FaultPlan, MemKeepers};
use mc_keepers::{KeeperPlan, Keepers};
use std::alloc::{AllocError, Global};
use std::test::Fail;

// Whether the first read of the keeper with this index fails, and none where its making failed.
fn first_read_fails<M: Keepers>(keepers: &mut M, alloc: Global, index: u64) -> Option<bool> {
    let Ok(mut keeper) = keepers.make(alloc, &KeeperPlan::Memory, index) else {
        return None;
    };
    let fails = keeper.has("/a").is_err();
    keepers.end(keeper, List::new(alloc));
    Some(fails)
}

// Whether just the first make fails, and then just the keeper with the index 1, whose failure is kept when it is taken
// back.
fn makes_as_planned<M: Keepers + Drop>(keepers: M, alloc: Global) -> bool {
    let mut keepers = keepers;
    first_read_fails(&mut keepers, alloc, 0).is_none()
        && first_read_fails(&mut keepers, alloc, 0) == Some(false)
        && keepers.lost() == 0
        && first_read_fails(&mut keepers, alloc, 1) == Some(true)
        && first_read_fails(&mut keepers, alloc, 2) == Some(false)
        && keepers.faults() == 1
        && keepers.lost() == 1
}

fn keepers(alloc: Global) -> Result<MemKeepers, AllocError> {
    let mut plans = List::new(alloc);
    plans.push(FaultPlan::nothing(alloc))?;
    plans.push(read_plan(alloc, 1)?)?;
    Ok(MemKeepers::new(plans, numbers(alloc, 1)?))
}

#[test]
fn a_planned_make_fails_and_a_keeper_has_its_plan(rt: HostRuntime) -> Result<(), Fail> {
    let alloc = rt.alloc();
    assert!(rt; makes_as_planned(keepers(alloc)?, alloc));
    Ok(())
}
