// The repair walk of a replica, over the blocks that were processed at its beginning, and what it settles.
ghost use Rattle.std.specs.Prelude.{◌≡◌, true, false, None, Some, IfOk, IfErr, IfSome};
ghost use Rattle.mc_model.specs.Events.{IsVisited};
ghost use Rattle.mc_queue.specs.Views.{shown};
ghost use Rattle.mc_plan.specs.declared.error.CoreError.{CoreError as Refused};
ghost use Rattle.mc_plan.specs.declared.walks.WalkStep.{WalkStep as Step};
ghost use Rattle.mc_plan.specs.Calls.{Stays};
ghost use Rattle.mc_core.specs.Exact.{DecidesAlone, IfRefusedOrShort, RestSame, front_of, stop_front};
ghost use Rattle.mc_plan.specs.Uptakes.{wants};
ghost use Rattle.mc_plan.specs.Reads.{read_refusal};
ghost use Rattle.mc_plan.specs.Refusals.{Is, is_fault};
ghost use Rattle.mc_plan.specs.Walks.{WalkEvents, clearing, clears, gap_count, settled_with, step_due};
ghost use Rattle.mc_core.specs.Words.{Acts, Continues, StillTells, StepsOn};

use crate::Replica;
use mc_base::Failed;
use mc_keep::{KeepError, Keeper, changes_fit, commits_are_events};
use mc_model::kept_is_durable;
use mc_plan::{
    CoreError, Settled, WalkStep, clearing, clears, is_sound, settled_with, walk_over,
    want_links_at,
};
use std::alloc::Global;

impl<K: Keeper> Replica<K> {
    /// Makes the next step of the repair walk, which is what is due by whether every gap counts as wanted and by the
    /// walk alone. A walk visits in their order the blocks that were processed at its beginning, and each block's links
    /// that are not processed are wanted, each unless it is; at its end every gap counts as wanted, and the dirty mark
    /// is cleared where no gap is left. Only the end commits, once at most. Refusals: `Stopped`; `Memory` leaves the
    /// replica as it was.
    pub fn walk_step(&mut self, alloc: Global) -> Result<WalkStep, CoreError>
        ensures call { Acts K.Keeper (λ s. Is (read_refusal s)) WalkEvents Stays result self.old self.new }
        ensures keeps { Continues K.Keeper (is_fault result) self.old self.new }
        ensures front { front_of result ≡ stop_front self.old.stopped None }
        ensures seen { IfErr result DecidesAlone }
        ensures step { IfOk result (λ step. StepsOn K.Keeper step self.old self.new) }
        ensures left { IfErr result (λ error. RestSame self.old self.new) }
        ensures wants { IfErr result (λ error. shown self.new.queue ≡ shown self.old.queue) }
        ensures refused { IfRefusedOrShort result (StillTells K.Keeper self.old self.new) }
    {
        if self.stopped {
            return Err(CoreError::Stopped);
        }
        if self.whole {
            return Ok(WalkStep::Idle);
        }
        self.go_on(alloc)
    }

    // The walk begins, visits its next position, or ends.
    fn go_on(&mut self, alloc: Global) -> Result<WalkStep, CoreError>
        requires up { self.old.stopped ≡ false }
        requires whole { self.old.whole ≡ false }
        ensures call { Acts K.Keeper (λ s. Is (read_refusal s)) WalkEvents Stays result self.old self.new }
        ensures keeps { Continues K.Keeper (is_fault result) self.old self.new }
        ensures only { front_of result ≡ None }
        ensures seen { IfErr result DecidesAlone }
        ensures step { IfOk result (λ step. StepsOn K.Keeper step self.old self.new) }
        ensures left { IfErr result (λ error. RestSame self.old self.new) }
        ensures wants { IfErr result (λ error. shown self.new.queue ≡ shown self.old.queue) }
        ensures refused { IfRefusedOrShort result (StillTells K.Keeper self.old self.new) }
    {
        let Some(walk) = &mut self.walk else {
            return self.begin_walk();
        };
        let Some(position) = walk.position() else {
            return self.end_walk(alloc);
        };
        match want_links_at(&mut self.keeper, &mut self.queue, alloc, position) {
            Ok(()) => {
                walk.visit();
                Ok(WalkStep::Visited { position })
            }
            Err(KeepError::Failed) => {
                self.stopped = true;
                Err(CoreError::KeeperFault)
            }
            Err(KeepError::Memory) => Err(CoreError::Memory),
        }
    }

    // A walk begins.
    fn begin_walk(&mut self) -> Result<WalkStep, CoreError>
        requires up { self.old.stopped ≡ false }
        requires whole { self.old.whole ≡ false }
        requires walk { self.old.walk ≡ None }
        ensures call { Acts K.Keeper (λ s. Is (read_refusal s)) WalkEvents Stays result self.old self.new }
        ensures keeps { Continues K.Keeper (is_fault result) self.old self.new }
        ensures only { front_of result ≡ None }
        ensures seen { IfErr result DecidesAlone }
        ensures step { IfOk result (λ step. StepsOn K.Keeper step self.old self.new) }
        ensures left { IfErr result (λ error. RestSame self.old self.new) }
        ensures wants { shown self.new.queue ≡ shown self.old.queue }
        ensures refused { IfRefusedOrShort result (StillTells K.Keeper self.old self.new) }
    {
        match walk_over(&mut self.keeper) {
            Ok(walk) => {
                self.walk = Some(walk);
                Ok(WalkStep::Begun)
            }
            Err(Failed) => {
                self.stopped = true;
                Err(CoreError::KeeperFault)
            }
        }
    }

    // A walk ends.
    fn end_walk(&mut self, alloc: Global) -> Result<WalkStep, CoreError>
        requires up { self.old.stopped ≡ false }
        requires whole { self.old.whole ≡ false }
        requires due { step_due self.old.whole self.old.walk ≡ Step.Ended }
        requires visited { IsVisited self.old.walk }
        ensures call { Acts K.Keeper (λ s. Is (read_refusal s)) WalkEvents Stays result self.old self.new }
        ensures keeps { Continues K.Keeper (is_fault result) self.old self.new }
        ensures only { front_of result ≡ None }
        ensures seen { IfErr result DecidesAlone }
        ensures step { IfOk result (λ step. StepsOn K.Keeper step self.old self.new) }
        ensures left { IfErr result (λ error. RestSame self.old self.new) }
        ensures wants { shown self.new.queue ≡ shown self.old.queue }
        ensures refused { IfRefusedOrShort result (StillTells K.Keeper self.old self.new) }
    {
        kept_is_durable();
        is_sound(&self.keeper);
        if clears(self.numbers) {
            return self.end_clean(alloc);
        }
        self.walk = None;
        self.whole = true;
        Ok(WalkStep::Ended)
    }

    // The same where the mark is to be cleared, by a commit without rows.
    fn end_clean(&mut self, alloc: Global) -> Result<WalkStep, CoreError>
        requires up { self.old.stopped ≡ false }
        requires whole { self.old.whole ≡ false }
        requires due { step_due self.old.whole self.old.walk ≡ Step.Ended }
        requires visited { IsVisited self.old.walk }
        requires clears { clears self.old.numbers ≡ true }
        ensures call { Acts K.Keeper (λ s. Is (read_refusal s)) WalkEvents Stays result self.old self.new }
        ensures keeps { Continues K.Keeper (is_fault result) self.old self.new }
        ensures only { front_of result ≡ None }
        ensures seen { IfErr result DecidesAlone }
        ensures step { IfOk result (λ step. StepsOn K.Keeper step self.old self.new) }
        ensures left { IfErr result (λ error. RestSame self.old self.new) }
        ensures wants { shown self.new.queue ≡ shown self.old.queue }
        ensures refused { IfRefusedOrShort result (StillTells K.Keeper self.old self.new) }
    {
        kept_is_durable();
        commits_are_events();
        changes_fit();
        is_sound(&self.keeper);
        match self.keeper.commit(clearing(alloc)) {
            Ok(()) => {
                self.numbers.mark = false;
                self.walk = None;
                self.whole = true;
                Ok(WalkStep::Ended)
            }
            Err(Failed) => {
                self.stopped = true;
                Err(CoreError::KeeperFault)
            }
        }
    }

    /// Whether every gap counts as wanted.
    pub fn is_whole(&self) -> bool
        ensures { result ≡ self.now.whole }
    {
        self.whole
    }

    /// Whether gaps are left, and how many, where every gap counts as wanted. Takes no memory and doesn't look at the
    /// keeper. Refusals: `Stopped`, and exactly where an earlier call answered `KeeperFault`.
    pub fn settle(&self) -> Result<Settled, CoreError>
        requires whole { self.now.whole ≡ true }
        ensures settled { IfOk result (λ settled.
            IfSome (K.told self.now.keeper) (λ kept. settled ≡ settled_with (gap_count kept))) }
        ensures numbers { IfOk result (λ settled. settled ≡ settled_with self.now.numbers.gaps) }
        ensures refused { IfErr result (λ error. (error ≡ Refused.Stopped) × (self.now.stopped ≡ true)) }
        ensures stopped { self.now.stopped ≡ true → IfOk result (λ settled. ⊥) }
    {
        if self.stopped {
            return Err(CoreError::Stopped);
        }
        Ok(settled_with(self.numbers.gaps))
    }
}
