// The walk of a repair, to its end.
ghost use Rattle.std.specs.Prelude.{◌≡◌, [], false, true, None, Ok, IfErr, IfSome};
ghost use Rattle.mc_queue.specs.Views.{shown};
ghost use Rattle.mc_core.specs.Walks.{is_whole_after};
ghost use Rattle.mc_core.specs.Words.{Becomes, Continues};
ghost use Rattle.mc_drain.specs.Repairs.{Walks, step_commits};
ghost use Rattle.mc_drain.specs.Words.{IsBroken, begin_failed, keeper_failed};

use crate::DrainEnd;
use crate::end::is_fault;
use mc_core::{Replica, WalkStep};
use mc_keep::Keeper;
use mc_model::{found_repairs_go_on, order_and_store_grow};
use std::alloc::Global;
use std::sync::Wait;

// The steps of the walk that are due, to its end: every gap counts as wanted then. Where that was so already, there is
// none. The repair's end, where it is at its end.
pub(crate) fn walk<K: Keeper, W: Wait>(
    alloc: Global,
    replica: &mut Replica<K>,
    wait: &W,
) -> Option<DrainEnd>
    requires runs { replica.old.stopped ≡ false }
    ensures walks { Becomes K.Keeper (λ rose s new. Walks (keeper_failed result) 1 s new) replica.old replica.new }
    ensures keeps { Continues K.Keeper (keeper_failed result) replica.old replica.new }
    ensures whole { result ≡ None → replica.new.whole ≡ true }
    ensures batch { replica.new.batch ≡ replica.old.batch }
    ensures flight { (shown replica.new.queue).flight ≡ (shown replica.old.queue).flight }
    ensures broken { IfSome result IsBroken }
{
    for _ in wait.forever() {
        match take_step(alloc, replica) {
            Ok(true) => return None,
            Ok(false) => {}
            Err(end) => return Some(end),
        }
    }
    unreachable!()
}

// One step: whether every gap counts as wanted then.
fn take_step<K: Keeper>(alloc: Global, replica: &mut Replica<K>) -> Result<bool, DrainEnd>
    requires runs { replica.old.stopped ≡ false }
    ensures walks { Becomes K.Keeper (λ rose s new. Walks (begin_failed result) (step_commits result) s new)
        replica.old replica.new }
    ensures keeps { Continues K.Keeper (begin_failed result) replica.old replica.new }
    ensures whole { result ≡ Ok true → replica.new.whole ≡ true }
    ensures batch { replica.new.batch ≡ replica.old.batch }
    ensures flight { (shown replica.new.queue).flight ≡ (shown replica.old.queue).flight }
    ensures broken { IfErr result IsBroken }
{
    found_repairs_go_on();
    order_and_store_grow();
    replica.is_sound();
    match replica.walk_step(alloc) {
        Ok(step) => Ok(is_last(step)),
        Err(error) => {
            if is_fault(error) {
                return Err(DrainEnd::KeeperFault);
            }
            Err(DrainEnd::Memory)
        }
    }
}

// Whether every gap counts as wanted after a step.
fn is_last(step: WalkStep) -> bool
    ensures { result ≡ is_whole_after step }
{
    match step {
        WalkStep::Idle => true,
        WalkStep::Begun => false,
        WalkStep::Visited { .. } => false,
        WalkStep::Ended => true,
    }
}
