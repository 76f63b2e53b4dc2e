// The calls on jobs are drains of the wanted blocks.
ghost use Rattle.std.specs.Prelude.{◌∷◌, [], cond, List, Option, Result, ℕ};
ghost use Rattle.mc_base.specs.Causes.{Rose};
ghost use Rattle.mc_base.specs.declared.cid.Cid.{Cid};
ghost use Rattle.mc_fetch.specs.declared.job.Delivered.{Delivered};
ghost use Rattle.mc_fetch.specs.declared.job.Job.{Job};
ghost use Rattle.mc_model.specs.Draining.{FoundBytes, IsFoundFor, all_given_back};
ghost use Rattle.mc_model.specs.Events.{GiveBack, Requeue};
ghost use Rattle.mc_model.specs.Graph.{has};
ghost use Rattle.mc_plan.specs.declared.error.CoreError.{CoreError};
ghost use Rattle.mc_plan.specs.Calls.{Call};
ghost use Rattle.mc_plan.specs.Drained.{CallDrains, DrainsOn};
ghost use Rattle.mc_plan.specs.Events.{ReplicaState, HappensIn};
ghost use Rattle.mc_plan.specs.Jobs.{DeliverEvents, DeliverShort, NextEvents, NextShort};
ghost use Rattle.mc_plan.specs.Reads.{read_refusal};
ghost use Rattle.mc_plan.specs.Refusals.{Is};

use mc_model::{deliveries_are_drains, found_drains_go_on, recall_gives_back};

/// What each call on jobs does, by its clause, is a drain of the wanted blocks, unless the keeper failed: where a drain
/// that began anywhere has come to the state before the call, it has come to the state after it. A delivery asks that
/// the bytes which were handed over are those that are found for the block.
pub fn calls_on_jobs_drain()
    ensures next { (bytes_of : FoundBytes) (before now : ℕ) (result : Result (Option Job) CoreError)
        (s new : ReplicaState) →
        Call (Is (read_refusal s)) (NextEvents s) (NextShort s) (Rose before now) result s new →
        CallDrains bytes_of result s new }
    ensures delivered { (bytes_of : FoundBytes) (cid : Cid) (found : Option (List ℕ)) (before now : ℕ)
        (result : Result Delivered CoreError) (s new : ReplicaState) → IsFoundFor bytes_of cid found →
        Call (Is (read_refusal s)) (DeliverEvents s cid found) (DeliverShort s cid) (Rose before now) result s new →
        CallDrains bytes_of result s new }
    ensures given_back { (bytes_of : FoundBytes) (cid : Cid) (s new : ReplicaState) →
        HappensIn s.state.run (λ run. cond (has cid run.queue.flight) (GiveBack cid ∷ []) []) s new →
        DrainsOn bytes_of s new }
    ensures requeued { (bytes_of : FoundBytes) (s new : ReplicaState) →
        HappensIn s.state.run (λ run. Requeue ∷ []) s new → DrainsOn bytes_of s new }
    ensures recalled { (bytes_of : FoundBytes) (s new : ReplicaState) →
        HappensIn s.state.run (λ run. all_given_back run.queue.flight) s new → DrainsOn bytes_of s new }
{
    found_drains_go_on();
    deliveries_are_drains();
    recall_gives_back();
}
