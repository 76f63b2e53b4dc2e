// Deletes: all their blocks are made first, and then taken up one after another.
ghost use Rattle.std.specs.Prelude.{◌≡◌, [], false, IfSome, IfErr, OnOk};
ghost use Rattle.mc_model.specs.Kept.{is_stored};
ghost use Rattle.mc_plan.specs.Deletes.{AddsDeleted, AreNext, DeleteEvents, DeleteRefusal};
ghost use Rattle.mc_plan.specs.Deletes.{DeleteShort, IsOutside};
ghost use Rattle.mc_plan.specs.Deletes.{ShortKeeps};
ghost use Rattle.mc_plan.specs.Deletes.{Takes, TakesOne};
ghost use Rattle.mc_core.specs.Exact.{IfRefused, RestSame, front_of, stop_front};
ghost use Rattle.mc_plan.specs.Uptakes.{IsNew};
ghost use Rattle.mc_plan.specs.Refusals.{is_fault, key_refusal};
ghost use Rattle.mc_core.specs.Words.{Acts, Becomes, CommitKeeps, Continues, TellsSame};

use crate::Replica;
use mc_base::{Failed, List};
use mc_keep::{Keeper, changes_fit, commits_are_events};
use mc_model::kept_is_durable;
use mc_plan::{CoreError, Deleted, MadeBlock, is_sound, make_delete, plan_one, stops};
use std::alloc::Global;

impl<K: Keeper> Replica<K> {
    /// Makes blocks with tombstones for all live elements of a key, stores each unless it is stored, and processes it,
    /// one after another. The first links to the heads, each later one to the one before. All are made, and each is
    /// looked at for a clash, before the first commit. Refusals in their order: `Stopped`, `BadKey`, `PriorityFull`,
    /// `BlockTooLarge`, `Clash`; these leave the replica as it was. After `Memory` some first blocks, but not all, may
    /// have been processed, and the key has the value that it had.
    pub fn delete(&mut self, alloc: Global, key: &str) -> Result<Deleted, CoreError>
        ensures call { Acts K.Keeper (λ s. DeleteRefusal s key.now) (λ s. DeleteEvents s key.now)
            (λ s. DeleteShort s key.now) result self.old self.new }
        ensures keeps { Continues K.Keeper (is_fault result) self.old self.new }
        ensures front { front_of result ≡ stop_front self.old.stopped (key_refusal key.now) }
        ensures rest { RestSame self.old self.new }
        ensures refused { IfRefused result (TellsSame K.Keeper self.old self.new) }
        ensures made { Becomes K.Keeper (λ rose. AddsDeleted key.now result) self.old self.new }
        ensures short { Becomes K.Keeper (λ rose. ShortKeeps key.now result) self.old self.new }
    {
        kept_is_durable();
        commits_are_events();
        changes_fit();
        is_sound(&self.keeper);
        if self.stopped {
            return Err(CoreError::Stopped);
        }
        match make_delete(&mut self.keeper, alloc, key) {
            Ok(blocks) => self.take_up_all(alloc, blocks),
            Err(error) => {
                self.stopped = stops(error);
                Err(error)
            }
        }
    }

    // Takes up made blocks, one after another.
    fn take_up_all(&mut self, alloc: Global, blocks: List<MadeBlock>) -> Result<Deleted, CoreError>
        requires up { self.old.stopped ≡ false }
        requires next { IfSome (K.told self.old.keeper) (λ kept. AreNext kept blocks) }
        ensures takes { Becomes K.Keeper (λ rose. Takes blocks rose result) self.old self.new }
        ensures only { IfErr result IsOutside }
        ensures keeps { CommitKeeps K.Keeper (is_fault result) self.old self.new }
    {
        kept_is_durable();
        let count = blocks.len() as u64;
        for made in blocks.into_vec() {
            match self.take_up_one(alloc, made) {
                Ok(()) => {}
                Err(error) => return Err(error),
            }
        }
        Ok(Deleted { blocks: count })
    }

    // Takes up one made block.
    fn take_up_one(&mut self, alloc: Global, made: MadeBlock) -> Result<(), CoreError>
        requires up { self.old.stopped ≡ false }
        requires new { IfSome (K.told self.old.keeper) (λ kept. IsNew kept made.block made.bytes []) }
        requires stored { IfSome (K.told self.old.keeper) (λ kept. made.known ≡ is_stored kept.graph made.block.cid) }
        ensures takes { Becomes K.Keeper (λ rose. TakesOne made rose result) self.old self.new }
        ensures only { IfErr result IsOutside }
        ensures up { OnOk result (self.new.stopped ≡ false) }
        ensures keeps { CommitKeeps K.Keeper (is_fault result) self.old self.new }
    {
        kept_is_durable();
        match plan_one(&mut self.keeper, alloc, made, self.whole) {
            Ok(uptake) => match self.carry_out(uptake) {
                Ok(()) => Ok(()),
                Err(Failed) => Err(CoreError::KeeperFault),
            },
            Err(error) => {
                self.stopped = stops(error);
                Err(error)
            }
        }
    }
}
