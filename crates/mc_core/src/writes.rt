// The calls of a replica that make one block.
ghost use Rattle.std.specs.Prelude.{◌≡◌, ◌≤◌, ◌∷◌, [], false, None, IfOk, IfErr, IfSome};
ghost use Rattle.mc_model.specs.Wanted.{without};
ghost use Rattle.mc_queue.specs.Views.{shown};
ghost use Rattle.mc_plan.specs.declared.error.CoreError.{CoreError as Refused};
ghost use Rattle.mc_plan.specs.Calls.{Stays};
ghost use Rattle.mc_plan.specs.Events.{Part};
ghost use Rattle.mc_core.specs.Exact.{IfRefusedOrShort, RestSame, front_of, put_front, stop_front};
ghost use Rattle.mc_plan.specs.Uptakes.{IsShaped, IsSomeUptake, uptake_events, uptake_rows};
ghost use Rattle.mc_plan.specs.Puts.{AddsPut, PutEvents, put_refusal};
ghost use Rattle.mc_plan.specs.Refusals.{Is, is_fault};
ghost use Rattle.mc_core.specs.Words.{Acts, Becomes, CommitKeeps, Continues, TellsSame};

use crate::Replica;
use mc_base::Failed;
use mc_keep::{Keeper, changes_fit, commits_are_events};
use mc_model::kept_is_durable;
use mc_plan::{CoreError, Planned, Written, is_sound, plan_put, stops};
use std::alloc::Global;

impl<K: Keeper> Replica<K> {
    /// Makes one block that sets a key to a value, over the heads, stores it unless it is stored, and processes it. All
    /// memory is taken before the first commit. Refusals in their order: `Stopped`, `BadKey`, `ValueTooLong`,
    /// `PriorityFull`, `BlockTooLarge`, `Clash`; these and `Memory` leave the replica as it was.
    pub fn put(&mut self, alloc: Global, key: &str, value: &[u8]) -> Result<Written, CoreError>
        ensures call { Acts K.Keeper (λ s. Is (put_refusal s key.now value.now)) (λ s. PutEvents s key.now value.now)
            Stays result self.old self.new }
        ensures keeps { Continues K.Keeper (is_fault result) self.old self.new }
        ensures front { front_of result ≡ stop_front self.old.stopped (put_front key.now value.now) }
        ensures rest { RestSame self.old self.new }
        ensures refused { IfRefusedOrShort result (TellsSame K.Keeper self.old self.new) }
        ensures wants { IfOk result (λ written.
            shown self.new.queue ≡ without (shown self.old.queue) (written.cid ∷ [])) }
        ensures made { IfOk result (λ written. Becomes K.Keeper (λ rose.
            AddsPut key.now value.now) self.old self.new) }
    {
        kept_is_durable();
        commits_are_events();
        changes_fit();
        is_sound(&self.keeper);
        if self.stopped {
            return Err(CoreError::Stopped);
        }
        match plan_put(&mut self.keeper, alloc, key, value, self.whole) {
            Ok(planned) => self.take_up(planned),
            Err(error) => {
                self.stopped = stops(error);
                Err(error)
            }
        }
    }

    // The commits of a planned block.
    pub(crate) fn take_up(&mut self, planned: Planned) -> Result<Written, CoreError>
        requires up { self.old.stopped ≡ false }
        requires room { uptake_rows planned.uptake ≤ K.spare self.old.keeper }
        requires shape { IsShaped planned.uptake }
        requires links { planned.uptake.after.links ≡ [] }
        requires same { planned.uptake.after.cid ≡ planned.written.cid }
        requires uptake { IfSome (K.told self.old.keeper) (λ kept. IsSomeUptake kept self.old.whole planned.uptake) }
        ensures part { Becomes K.Keeper (λ rose. Part (uptake_events planned.uptake) rose result) self.old self.new }
        ensures answer { IfOk result (λ written. written ≡ planned.written) }
        ensures only { IfErr result (λ error. error ≡ Refused.KeeperFault) }
        ensures up { IfOk result (λ written. self.new.stopped ≡ false) }
        ensures queue { IfOk result (λ written.
            shown self.new.queue ≡ without (shown self.old.queue) (written.cid ∷ [])) }
        ensures keeps { CommitKeeps K.Keeper (is_fault result) self.old self.new }
    {
        let Planned { uptake, written } = planned;
        match self.carry_out(uptake) {
            Ok(()) => Ok(written),
            Err(Failed) => Err(CoreError::KeeperFault),
        }
    }
}
