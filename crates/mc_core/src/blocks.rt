// Blocks by their places in the order of processing, and faces that are brought up to the processed blocks.
ghost use Rattle.std.specs.Prelude.{◌≡◌, None, true, is_some, length, slice_get, IfErr, IfOk, IfSome, OnErr};
ghost use Rattle.mc_model.specs.Kept.{processed};
ghost use Rattle.mc_face.specs.Lists.{Starts};
ghost use Rattle.mc_core.specs.Exact.{DecidesAlone, RestSame, front_of, stop_front};
ghost use Rattle.mc_plan.specs.Refusals.{is_fault};
ghost use Rattle.mc_core.specs.Words.{Answers, Continues, TellsSame};

use crate::Replica;
use mc_face::{Exactness, FaceWriter};
use mc_keep::Keeper;
use mc_model::{Block, kept_is_durable};
use mc_plan::{CoreError, stops};
use std::alloc::Global;

impl<K: Keeper> Replica<K> {
    /// The block at a place in the order of processing, from 0, or none past its end. Over a keeper that does not tell,
    /// bytes that are no block, and none, count as none. Refusals: `Stopped`.
    pub fn block_at(&mut self, alloc: Global, position: u64) -> Result<Option<Block>, CoreError>
        ensures call { Answers K.Keeper (λ kept found. found ≡ slice_get (processed kept) position)
            result self.old self.new }
        ensures keeps { Continues K.Keeper (is_fault result) self.old self.new }
        ensures front { front_of result ≡ stop_front self.old.stopped None }
        ensures seen { IfErr result DecidesAlone }
        ensures rest { RestSame self.old self.new }
        ensures same { TellsSame K.Keeper self.old self.new }
    {
        kept_is_durable();
        if self.stopped {
            return Err(CoreError::Stopped);
        }
        match mc_news::block_at(&mut self.keeper, alloc, position) {
            Ok(found) => Ok(found),
            Err(error) => {
                let error = CoreError::from(error);
                self.stopped = stops(error);
                Err(error)
            }
        }
    }

    /// Brings a face to the processed blocks, and says how many blocks its list has then. Readers see it once it is
    /// published. A refusal leaves the face as it was. Refusals: `Stopped`.
    ///
    /// Conditions: where the keeper tells, the face's list is a beginning of the processed blocks; where the face is
    /// exact, the keeper tells.
    pub fn catch_up<X: Exactness>(
        &mut self,
        alloc: Global,
        face: &mut FaceWriter<X>,
    ) -> Result<u64, CoreError>
        requires begins { IfSome (K.told self.old.keeper) (λ kept. Starts (processed kept) face.old.list) }
        requires tells { X.exact ≡ true → is_some (K.told self.old.keeper) ≡ true }
        ensures call { Answers K.Keeper (λ kept count. face.new.list ≡ processed kept) result self.old self.new }
        ensures list { IfOk result (λ count. IfSome (K.told self.old.keeper) (λ kept.
            face.new.list ≡ processed kept)) }
        ensures count { IfOk result (λ count. count ≡ length face.new.list) }
        ensures err { OnErr result (face.new.list ≡ face.old.list) }
        ensures shown { face.new.shown ≡ face.old.shown }
        ensures face { face.new.face ≡ face.old.face }
        ensures keeps { Continues K.Keeper (is_fault result) self.old self.new }
        ensures front { front_of result ≡ stop_front self.old.stopped None }
        ensures seen { IfErr result DecidesAlone }
        ensures rest { RestSame self.old self.new }
        ensures same { TellsSame K.Keeper self.old self.new }
    {
        kept_is_durable();
        if self.stopped {
            return Err(CoreError::Stopped);
        }
        match mc_news::catch_up(&mut self.keeper, alloc, face) {
            Ok(count) => Ok(count),
            Err(error) => {
                let error = CoreError::from(error);
                self.stopped = stops(error);
                Err(error)
            }
        }
    }
}
