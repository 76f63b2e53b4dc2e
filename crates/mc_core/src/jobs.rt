// The jobs of a replica: the wanted blocks that are to be fetched.
ghost use Rattle.std.specs.Prelude.{◌≡◌, ◌∷◌, [], None, IfErr, IfOk, IfSome, option_map, cond};
ghost use Rattle.mc_fetch.specs.Offers.{HasDigest};
ghost use Rattle.mc_fetch.specs.declared.job.Job.{Job as Begun};
ghost use Rattle.mc_model.specs.Draining.{all_given_back};
ghost use Rattle.mc_model.specs.Events.{GiveBack, Requeue};
ghost use Rattle.mc_model.specs.Graph.{has};
ghost use Rattle.mc_model.specs.Wanted.{give_back, requeue, recall};
ghost use Rattle.mc_queue.specs.Parts.{first_of};
ghost use Rattle.mc_queue.specs.Views.{shown};
ghost use Rattle.mc_core.specs.Exact.{DecidesAlone, RestSame, front_of, stop_front};
ghost use Rattle.mc_plan.specs.Jobs.{NextEvents, NextShort, NextWants};
ghost use Rattle.mc_plan.specs.Reads.{read_refusal};
ghost use Rattle.mc_plan.specs.Refusals.{Is, is_fault};
ghost use Rattle.mc_core.specs.Words.{Acts, Continues, HappensTo, StillTells};

use crate::Replica;
use mc_fetch::Job;
use mc_keep::{KeepError, Keeper};
use mc_model::{kept_is_durable, recall_gives_back};
use mc_plan::{CoreError, own_bytes};
use std::alloc::Global;

impl<K: Keeper> Replica<K> {
    /// Begins a job for the first block that waits, which is in flight then: the block, and the bytes that the replica
    /// has stored under it, where their SHA-256 is its digest. `None` exactly where no block waits. Refusals:
    /// `Stopped`; after `Memory` the block is at the back of those that wait.
    pub fn next_job(&mut self, alloc: Global) -> Result<Option<Job>, CoreError>
        ensures call { Acts K.Keeper (λ s. Is (read_refusal s)) NextEvents NextShort result self.old self.new }
        ensures keeps { Continues K.Keeper (is_fault result) self.old self.new }
        ensures front { front_of result ≡ stop_front self.old.stopped None }
        ensures seen { IfErr result DecidesAlone }
        ensures rest { RestSame self.old self.new }
        ensures tells { StillTells K.Keeper self.old self.new }
        ensures first { IfOk result (λ job.
            option_map (λ (job : Begun). job.cid) job ≡ first_of (shown self.old.queue).waiting) }
        ensures digest { IfOk result (λ job. IfSome job (λ (job : Begun). IfSome job.own (HasDigest job.cid))) }
        ensures wants { NextWants result (shown self.old.queue) (shown self.new.queue) }
    {
        kept_is_durable();
        if self.stopped {
            return Err(CoreError::Stopped);
        }
        let Some(cid) = self.queue.next() else {
            return Ok(None);
        };
        let own = match own_bytes(&mut self.keeper, alloc, &cid) {
            Ok(own) => own,
            Err(KeepError::Failed) => {
                self.stopped = true;
                return Err(CoreError::KeeperFault);
            }
            Err(KeepError::Memory) => {
                self.queue.back(&cid);
                return Err(CoreError::Memory);
            }
        };
        Ok(Some(Job { cid, own }))
    }

    /// Gives a job back: its block comes to the back of those that wait, where it is still in flight. It takes no
    /// memory and can't fail.
    pub fn give_back(&mut self, job: Job)
        ensures goes { HappensTo K.Keeper (λ run.
            cond (has job.cid run.queue.flight) (GiveBack job.cid ∷ []) []) self.old self.new }
        ensures keeper { self.new.keeper ≡ self.old.keeper }
        ensures stops { self.new.stopped ≡ self.old.stopped }
        ensures rest { RestSame self.old self.new }
        ensures wants { shown self.new.queue ≡ cond (has job.cid (shown self.old.queue).flight)
            (give_back (shown self.old.queue) job.cid) (shown self.old.queue) }
    {
        self.queue.back(&job.cid);
    }

    /// What is missing, and then what is bad, comes to the back of what waits. It takes no memory and can't fail.
    pub fn requeue(&mut self)
        ensures goes { HappensTo K.Keeper (λ run. Requeue ∷ []) self.old self.new }
        ensures keeper { self.new.keeper ≡ self.old.keeper }
        ensures stops { self.new.stopped ≡ self.old.stopped }
        ensures rest { RestSame self.old self.new }
        ensures wants { shown self.new.queue ≡ requeue (shown self.old.queue) }
    {
        self.queue.requeue();
    }

    /// Gives back all jobs: their blocks come to the back of what waits, in their order. It takes no memory and can't
    /// fail.
    pub fn recall(&mut self)
        ensures goes { HappensTo K.Keeper (λ run. all_given_back run.queue.flight) self.old self.new }
        ensures keeper { self.new.keeper ≡ self.old.keeper }
        ensures stops { self.new.stopped ≡ self.old.stopped }
        ensures rest { RestSame self.old self.new }
        ensures wants { shown self.new.queue ≡ recall (shown self.old.queue) }
    {
        recall_gives_back();
        self.queue.recall();
    }
}
