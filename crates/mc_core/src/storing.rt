// Verified blocks that are stored and not processed.
ghost use Rattle.std.specs.Prelude.{◌≡◌, ◌≤◌, [], ◌∷◌, false, None, map, length, IfErr, IfOk, IfSome};
ghost use Rattle.mc_inbox.specs.Groups.{store_events};
ghost use Rattle.mc_inbox.specs.Waiting.{as_stored};
ghost use Rattle.mc_group.specs.Storing.{KeepEvents};
ghost use Rattle.mc_keep.specs.Changes.{row_count};
ghost use Rattle.mc_keep.specs.Tables.{ChangesFit};
ghost use Rattle.mc_plan.specs.declared.error.CoreError.{CoreError as Refused};
ghost use Rattle.mc_plan.specs.Calls.{Stays};
ghost use Rattle.mc_plan.specs.Events.{Part};
ghost use Rattle.mc_plan.specs.Reads.{read_refusal};
ghost use Rattle.mc_plan.specs.Refusals.{Is, is_fault};
ghost use Rattle.mc_core.specs.Exact.{DecidesAlone, IfRefusedOrShort, RestSame, front_of, stop_front};
ghost use Rattle.mc_core.specs.Words.{Acts, Becomes, CommitKeeps, Continues, TellsSame};

use crate::Replica;
use mc_base::{Failed, List};
use mc_block::Verified;
use mc_group::plan_store;
use mc_keep::{Changes, Keeper};
use mc_model::kept_is_durable;
use mc_plan::{CoreError, stops};
use std::alloc::Global;

impl<K: Keeper> Replica<K> {
    /// Stores those of the blocks that are not stored, of several with one identifier the first, in one commit, and gives
    /// their number; where there are none, nothing is committed. They are neither processed nor wanted. All memory is
    /// taken before the commit. Refusals: `Stopped`; this and `Memory` leave the replica as it was.
    pub fn keep(&mut self, alloc: Global, blocks: List<Verified>) -> Result<u64, CoreError>
        ensures call { Acts K.Keeper (λ s. Is (read_refusal s)) (λ s. KeepEvents s (map as_stored blocks))
            Stays result self.old self.new }
        ensures keeps { Continues K.Keeper (is_fault result) self.old self.new }
        ensures front { front_of result ≡ stop_front self.old.stopped None }
        ensures seen { IfErr result DecidesAlone }
        ensures rest { RestSame self.old self.new }
        ensures refused { IfRefusedOrShort result (TellsSame K.Keeper self.old self.new) }
        ensures queue { self.new.queue ≡ self.old.queue }
        ensures few { IfOk result (λ count. count ≤ length blocks) }
    {
        kept_is_durable();
        if self.stopped {
            return Err(CoreError::Stopped);
        }
        match plan_store(&mut self.keeper, alloc, blocks) {
            Ok(store) => self.store(store),
            Err(error) => {
                let error = CoreError::from(error);
                self.stopped = stops(error);
                Err(error)
            }
        }
    }

    // The commit that stores these blocks, or none where there are none.
    fn store(&mut self, store: Changes) -> Result<u64, CoreError>
        requires up { self.old.stopped ≡ false }
        requires room { row_count store ≤ K.spare self.old.keeper }
        requires only { (store.marks ≡ []) × (store.mark ≡ None) }
        requires fits { IfSome (K.told self.old.keeper) (λ kept. ChangesFit kept store) }
        ensures part { Becomes K.Keeper (λ rose. Part (store_events store.store) rose result) self.old self.new }
        ensures answer { IfOk result (λ count. count ≡ length store.store) }
        ensures only { IfErr result (λ error. error ≡ Refused.KeeperFault) }
        ensures keeps { CommitKeeps K.Keeper (is_fault result) self.old self.new }
        ensures queue { self.new.queue ≡ self.old.queue }
    {
        let count = store.store.as_slice().len() as u64;
        if count == 0 {
            return Ok(0);
        }
        match self.commit_store(store) {
            Ok(()) => Ok(count),
            Err(Failed) => Err(CoreError::KeeperFault),
        }
    }
}
