// The jobs of a drain: each begins, and is delivered or given back.
ghost use Rattle.std.specs.Prelude.{◌≡◌, ◌≢◌, ◌+◌, ◌++◌, ◌∷◌, [], false, cond, not, None, Some, IfErr, IfOk, IfSome};
ghost use Rattle.mc_fetch.specs.Fits.{FoundHas};
ghost use Rattle.mc_fetch.specs.Offers.{HasDigest};
ghost use Rattle.mc_fetch.specs.declared.job.Job.{Job as Begun};
ghost use Rattle.mc_model.specs.Draining.{bytes_in, delivery};
ghost use Rattle.mc_model.specs.Graph.{has};
ghost use Rattle.mc_model.specs.Wanted.{give_back, recall, requeue};
ghost use Rattle.mc_queue.specs.Views.{shown};
ghost use Rattle.mc_core.specs.AnswersTo.{IsAnswerTo};
ghost use Rattle.mc_core.specs.Exact.{RestSame};
ghost use Rattle.mc_core.specs.Jobs.{DeliverEvents, DeliverShort, NextEvents, NextShort, WantsAfter, found_in};
ghost use Rattle.mc_core.specs.Jobs.{is_known, tried_first};
ghost use Rattle.mc_core.specs.Replica.{replica_state};
ghost use Rattle.mc_core.specs.Words.{Becomes, Continues, HappensTo};
ghost use Rattle.mc_drain.specs.JobCalls.{JobCall, back_events};
ghost use Rattle.mc_drain.specs.Leads.{Always, Leads, LeadsBy, all_processes, count};
ghost use Rattle.mc_drain.specs.Lost.{Nobody, Sticks, StuckOf};
ghost use Rattle.mc_drain.specs.Words.{Begins, EndsJob, FoundFor, TakenFor, IsBroken, IsNoBlock, begin_failed};
ghost use Rattle.mc_drain.specs.Words.{is_keeper};
ghost use Rattle.mc_drain.specs.Words.{keeper_failed};

use crate::DrainEnd;
use crate::end::{is_fault, is_keeper};
use mc_core::Replica;
use mc_fetch::{Delivered, Found, Job};
use mc_keep::Keeper;
use mc_model::{
    deliveries_are_drains, found_drains_go_on, order_and_store_grow, parts_stay_right,
    recall_gives_back,
};
use std::alloc::Global;

/// Begins a job for the first block that waits, which is in flight then, with the bytes that the replica has stored
/// under it; none exactly where nothing waits. Other jobs may be in flight. What it does is what `Replica::next_job`
/// does: after `Memory` that block is at the back of those that wait, over every keeper.
pub fn begin_job<K: Keeper>(
    alloc: Global,
    replica: &mut Replica<K>,
) -> Result<Option<Job>, DrainEnd>
    requires runs { replica.old.stopped ≡ false }
    ensures call { Becomes K.Keeper (λ rose. JobCall NextEvents NextShort rose result) replica.old replica.new }
    ensures leads { Becomes K.Keeper (λ rose s new. Leads (begin_failed result) (count s) Always s new)
        replica.old replica.new }
    ensures keeps { Continues K.Keeper (begin_failed result) replica.old replica.new }
    ensures rest { RestSame replica.old replica.new }
    ensures begins { IfOk result (Begins (shown replica.old.queue) (shown replica.new.queue)) }
    ensures digest { IfOk result (λ job. IfSome job (λ (job : Begun). IfSome job.own (HasDigest job.cid))) }
    ensures own { IfSome (replica_state K.told K.fuse replica.old) (λ s. IfOk result (λ job.
        IfSome job (λ (job : Begun). job.own ≡ bytes_in s.state.durable.graph job.cid))) }
    ensures broken { IfErr result IsBroken }
    ensures short { IfErr result (λ end. end ≡ DrainEnd.Memory → shown replica.new.queue
        ≡ tried_first (shown replica.old.queue) (shown replica.old.queue).waiting) }
{
    found_drains_go_on();
    order_and_store_grow();
    parts_stay_right();
    replica.is_sound();
    match replica.next_job(alloc) {
        Ok(job) => Ok(job),
        Err(error) => {
            if is_fault(error) {
                return Err(DrainEnd::KeeperFault);
            }
            Err(DrainEnd::Memory)
        }
    }
}

/// Delivers what was found for a job, which may be one of many. What it does, and its answer, are those of
/// `Replica::deliver`: after `Memory` its block is at the back of those that wait, over every keeper.
pub fn deliver_job<K: Keeper>(
    alloc: Global,
    replica: &mut Replica<K>,
    job: Job,
    found: Found,
) -> Result<Delivered, DrainEnd>
    requires runs { replica.old.stopped ≡ false }
    requires digest { FoundHas job.cid found }
    ensures call { Becomes K.Keeper (λ rose. JobCall (λ s. DeliverEvents s job.cid (found_in found))
        (λ s. DeliverShort s job.cid) rose result) replica.old replica.new }
    ensures leads { Becomes K.Keeper (λ rose s new. LeadsBy (begin_failed result)
        (count s + all_processes (delivery s.state.durable.graph job.cid (found_in found)))
        (TakenFor job.cid (found_in found)) (FoundFor job.cid (found_in found)) s new) replica.old replica.new }
    ensures keeps { Continues K.Keeper (begin_failed result) replica.old replica.new }
    ensures rest { RestSame replica.old replica.new }
    ensures broken { IfErr result IsBroken }
    ensures short { IfErr result (λ end. end ≡ DrainEnd.Memory →
        shown replica.new.queue ≡ give_back (shown replica.old.queue) job.cid) }
    ensures wants { IfOk result (λ delivered.
        WantsAfter delivered (shown replica.old.queue) (shown replica.new.queue) job.cid) }
    ensures known { IfOk result (λ delivered.
        is_known delivered ≡ not (has job.cid (shown replica.old.queue).flight)) }
    ensures answers { IfOk result (IsAnswerTo job.cid (found_in found)) }
    ensures stuck { IfSome (replica_state K.told K.fuse replica.old) (λ s. IfOk result (λ delivered.
        IsNoBlock job.cid (found_in found) → (shown replica.new.queue).waiting ≡ (shown replica.old.queue).waiting)) }
{
    found_drains_go_on();
    order_and_store_grow();
    parts_stay_right();
    deliveries_are_drains();
    replica.is_sound();
    match replica.deliver(alloc, job, found) {
        Ok(delivered) => Ok(delivered),
        Err(error) => {
            if is_fault(error) {
                return Err(DrainEnd::KeeperFault);
            }
            Err(DrainEnd::Memory)
        }
    }
}

/// Gives a job back, which may be one of many: its block comes to the back of those that wait, where it is in flight.
/// It takes no memory and can't fail.
pub fn give_job_back<K: Keeper>(replica: &mut Replica<K>, job: Job)
    ensures goes { HappensTo K.Keeper (back_events job.cid) replica.old replica.new }
    ensures leads { Becomes K.Keeper (λ rose s new. Leads false (count s) Always s new) replica.old replica.new }
    ensures keeps { Continues K.Keeper false replica.old replica.new }
    ensures rest { RestSame replica.old replica.new }
    ensures wants { shown replica.new.queue ≡ cond (has job.cid (shown replica.old.queue).flight)
        (give_back (shown replica.old.queue) job.cid) (shown replica.old.queue) }
{
    found_drains_go_on();
    order_and_store_grow();
    parts_stay_right();
    replica.is_sound();
    replica.give_back(job);
}

// A job begins where none is in flight, and none is where it didn't.
pub(crate) fn begin<K: Keeper>(
    alloc: Global,
    replica: &mut Replica<K>,
) -> Result<Option<Job>, DrainEnd>
    requires runs { replica.old.stopped ≡ false }
    requires flight { (shown replica.old.queue).flight ≡ [] }
    ensures leads { Becomes K.Keeper (λ rose s new. Leads (begin_failed result) (count s) Always s new)
        replica.old replica.new }
    ensures keeps { Continues K.Keeper (begin_failed result) replica.old replica.new }
    ensures rest { RestSame replica.old replica.new }
    ensures begins { IfOk result (Begins (shown replica.old.queue) (shown replica.new.queue)) }
    ensures digest { IfOk result (λ job. IfSome job (λ (job : Begun). IfSome job.own (HasDigest job.cid))) }
    ensures own { IfSome (replica_state K.told K.fuse replica.old) (λ s. IfOk result (λ job.
        IfSome job (λ (job : Begun). job.own ≡ bytes_in s.state.durable.graph job.cid))) }
    ensures broken { IfErr result IsBroken }
    ensures flight { IfErr result (λ end. is_keeper end ≡ false → (shown replica.new.queue).flight ≡ []) }
    ensures sticks { begin_failed result ≡ false →
        Sticks Nobody (shown replica.old.queue) (shown replica.new.queue) }
{
    match begin_job(alloc, replica) {
        Ok(job) => Ok(job),
        Err(end) => {
            if is_keeper(end) {
                return Err(end);
            }
            recall(replica);
            Err(end)
        }
    }
}

// What was found for the only job is delivered.
pub(crate) fn deliver<K: Keeper>(
    alloc: Global,
    replica: &mut Replica<K>,
    job: Job,
    found: Found,
) -> Option<DrainEnd>
    requires runs { replica.old.stopped ≡ false }
    requires flight { (shown replica.old.queue).flight ≡ job.cid ∷ [] }
    requires digest { FoundHas job.cid found }
    ensures leads { Becomes K.Keeper (λ rose s new. Leads (keeper_failed result)
        (count s + all_processes (delivery s.state.durable.graph job.cid (found_in found)))
        (FoundFor job.cid (found_in found)) s new) replica.old replica.new }
    ensures keeps { Continues K.Keeper (keeper_failed result) replica.old replica.new }
    ensures rest { RestSame replica.old replica.new }
    ensures broken { IfSome result IsBroken }
    ensures flight { keeper_failed result ≡ false → (shown replica.new.queue).flight ≡ [] }
    ensures ends { result ≡ None → EndsJob (shown replica.old.queue) (shown replica.new.queue) job.cid }
    ensures sticks { keeper_failed result ≡ false →
        Sticks (StuckOf job.cid (found_in found)) (shown replica.old.queue) (shown replica.new.queue) }
    ensures stuck { IfSome (replica_state K.told K.fuse replica.old) (λ s. result ≡ None →
        IsNoBlock job.cid (found_in found) → (shown replica.new.queue).waiting ≡ (shown replica.old.queue).waiting) }
{
    match deliver_job(alloc, replica, job, found) {
        Ok(_delivered) => None,
        Err(end) => {
            if is_keeper(end) {
                return Some(end);
            }
            recall(replica);
            Some(end)
        }
    }
}

// The only job is given back.
pub(crate) fn back<K: Keeper>(replica: &mut Replica<K>, job: Job)
    requires flight { (shown replica.old.queue).flight ≡ job.cid ∷ [] }
    ensures leads { Becomes K.Keeper (λ rose s new. Leads false (count s) Always s new) replica.old replica.new }
    ensures keeps { Continues K.Keeper false replica.old replica.new }
    ensures rest { RestSame replica.old replica.new }
    ensures flight { (shown replica.new.queue).flight ≡ [] }
    ensures sticks { Sticks Nobody (shown replica.old.queue) (shown replica.new.queue) }
    ensures waits { (shown replica.new.queue).waiting ≡ (shown replica.old.queue).waiting ++ job.cid ∷ [] }
{
    give_job_back(replica, job);
}

// All jobs are given back.
pub(crate) fn recall<K: Keeper>(replica: &mut Replica<K>)
    ensures leads { Becomes K.Keeper (λ rose s new. Leads false (count s) Always s new) replica.old replica.new }
    ensures keeps { Continues K.Keeper false replica.old replica.new }
    ensures rest { RestSame replica.old replica.new }
    ensures wants { shown replica.new.queue ≡ recall (shown replica.old.queue) }
{
    found_drains_go_on();
    order_and_store_grow();
    parts_stay_right();
    recall_gives_back();
    replica.is_sound();
    replica.recall();
}

/// What is missing, and then what is bad, comes to the back of what waits, so that it is tried again. Nothing that is
/// stored changes. It takes no memory and can't fail.
pub fn requeue<K: Keeper>(replica: &mut Replica<K>)
    ensures leads { Becomes K.Keeper (λ rose s new. Leads false (count s) Always s new) replica.old replica.new }
    ensures keeps { Continues K.Keeper false replica.old replica.new }
    ensures rest { RestSame replica.old replica.new }
    ensures wants { shown replica.new.queue ≡ requeue (shown replica.old.queue) }
    ensures stored { Becomes K.Keeper (λ rose s new. new.state.durable ≡ s.state.durable) replica.old replica.new }
{
    found_drains_go_on();
    order_and_store_grow();
    parts_stay_right();
    replica.is_sound();
    replica.requeue();
}
