// The calls of a replica that only read.
ghost use Rattle.std.specs.Prelude.{◌≡◌, ◌+◌, None, true, false, is_some, map, slice_get, IfErr, IfOk, IfSome};
ghost use Rattle.mc_plan.specs.declared.error.CoreError.{CoreError as Refused};
ghost use Rattle.std.specs.List.{position};
ghost use Rattle.mc_key.specs.Prefix.{is_under};
ghost use Rattle.mc_model.specs.Answers as answers;
ghost use Rattle.mc_model.specs.Answers.{has_value};
ghost use Rattle.mc_model.specs.Front.{heads, is_among, same_cid};
ghost use Rattle.mc_model.specs.Kept.{bytes_at, processed};
ghost use Rattle.mc_model.specs.Live.{value};
ghost use Rattle.mc_model.specs.Who.{who};
ghost use Rattle.mc_keep.specs.Changes.{heads_in_rows};
ghost use Rattle.mc_keep.specs.Plan.{ReadsAsPlanned};
ghost use Rattle.mc_query.specs.Answers.{AreAnswers};
ghost use Rattle.mc_query.specs.Places.{pair_of, start_of};
ghost use Rattle.mc_query.specs.Reads.{ReadsWithin};
ghost use Rattle.mc_core.specs.Exact.{DecidesAlone, NoMemory, RestSame, front_of, stop_front};
ghost use Rattle.mc_plan.specs.Refusals.{is_fault};
ghost use Rattle.mc_core.specs.Words.{Answers, Continues, TellsSame};

use crate::Replica;
use mc_base::{Bytes, Cid, List};
use mc_keep::{HeadRow, Keeper};
use mc_model::kept_is_durable;
use mc_plan::{CoreError, stops};
use mc_query::Pair;
use std::alloc::Global;

impl<K: Keeper> Replica<K> {
    /// The value of a key over the processed blocks, or none where it has none. The key is any text. It makes one read of
    /// the keeper. Refusals: `Stopped`.
    pub fn get(&mut self, alloc: Global, key: &str) -> Result<Option<Bytes>, CoreError>
        ensures call { Answers K.Keeper (λ kept found.
            found ≡ value (processed kept) key.now) result self.old self.new }
        ensures keeps { Continues K.Keeper (is_fault result) self.old self.new }
        ensures front { front_of result ≡ stop_front self.old.stopped None }
        ensures seen { IfErr result DecidesAlone }
        ensures rest { RestSame self.old self.new }
        ensures same { TellsSame K.Keeper self.old self.new }
        ensures planned { self.old.stopped ≡ false → ReadsAsPlanned
            (K.schedule self.old.keeper) (K.schedule self.new.keeper) (is_fault result) }
    {
        kept_is_durable();
        if self.stopped {
            return Err(CoreError::Stopped);
        }
        match mc_query::get(&mut self.keeper, alloc, key) {
            Ok(found) => Ok(found),
            Err(error) => {
                let error = CoreError::from(error);
                self.stopped = stops(error);
                Err(error)
            }
        }
    }

    /// Whether a key has a value over the processed blocks. The key is any text. It makes one read of the keeper, and takes
    /// no memory. Refusals: `Stopped`.
    pub fn has(&mut self, key: &str) -> Result<bool, CoreError>
        ensures call { Answers K.Keeper (λ kept found.
            found ≡ has_value (processed kept) key.now) result self.old self.new }
        ensures keeps { Continues K.Keeper (is_fault result) self.old self.new }
        ensures front { front_of result ≡ stop_front self.old.stopped None }
        ensures seen { IfErr result DecidesAlone }
        ensures rest { RestSame self.old self.new }
        ensures same { TellsSame K.Keeper self.old self.new }
        ensures planned { self.old.stopped ≡ false → ReadsAsPlanned
            (K.schedule self.old.keeper) (K.schedule self.new.keeper) (is_fault result) }
        ensures no_memory { NoMemory result }
    {
        kept_is_durable();
        if self.stopped {
            return Err(CoreError::Stopped);
        }
        match mc_query::has(&mut self.keeper, key) {
            Ok(found) => Ok(found),
            Err(error) => {
                let error = CoreError::from(error);
                self.stopped = stops(error);
                Err(error)
            }
        }
    }

    /// The block that gives a key its value over the processed blocks, or none where it has none: of the blocks with a
    /// live element of the greatest priority and value, the one with the least identifier. The key is any text. It
    /// makes one read of the keeper, and takes no memory. Refusals: `Stopped`.
    pub fn who(&mut self, key: &str) -> Result<Option<Cid>, CoreError>
        ensures call { Answers K.Keeper (λ kept cid.
            cid ≡ who (processed kept) key.now) result self.old self.new }
        ensures keeps { Continues K.Keeper (is_fault result) self.old self.new }
        ensures front { front_of result ≡ stop_front self.old.stopped None }
        ensures seen { IfErr result DecidesAlone }
        ensures rest { RestSame self.old self.new }
        ensures same { TellsSame K.Keeper self.old self.new }
        ensures planned { self.old.stopped ≡ false → ReadsAsPlanned
            (K.schedule self.old.keeper) (K.schedule self.new.keeper) (is_fault result) }
        ensures no_memory { NoMemory result }
    {
        kept_is_durable();
        if self.stopped {
            return Err(CoreError::Stopped);
        }
        match self.keeper.winner(key) {
            Ok(cid) => Ok(cid),
            Err(error) => {
                let error = CoreError::from(error);
                self.stopped = stops(error);
                Err(error)
            }
        }
    }

    /// The keys with a value that a prefix selects, ascending by their bytes, each with its value: those after the
    /// first `skip` of them, and at most `count`. Over every keeper they ascend, are selected and are at most so many, and
    /// it makes at most `skip + count` reads. Refusals: `Stopped`.
    pub fn query(
        &mut self,
        alloc: Global,
        prefix: &str,
        skip: u64,
        count: u64,
    ) -> Result<List<Pair>, CoreError>
        ensures call { Answers K.Keeper (λ kept pairs.
            map pair_of pairs ≡ answers.query (processed kept) (is_under prefix.now) skip count)
            result self.old self.new }
        ensures ascend { IfOk result (λ pairs. AreAnswers (start_of prefix.now) true prefix.now count pairs) }
        ensures keeps { Continues K.Keeper (is_fault result) self.old self.new }
        ensures front { front_of result ≡ stop_front self.old.stopped None }
        ensures seen { IfErr result DecidesAlone }
        ensures rest { RestSame self.old self.new }
        ensures same { TellsSame K.Keeper self.old self.new }
        ensures planned { self.old.stopped ≡ false → ReadsWithin (skip + count)
            (K.schedule self.old.keeper) (K.schedule self.new.keeper) (is_fault result) }
    {
        kept_is_durable();
        if self.stopped {
            return Err(CoreError::Stopped);
        }
        match mc_query::query(&mut self.keeper, alloc, prefix, skip, count) {
            Ok(pairs) => Ok(pairs),
            Err(error) => {
                let error = CoreError::from(error);
                self.stopped = stops(error);
                Err(error)
            }
        }
    }

    /// The heads, ascending by the digest, each with its height. Refusals: `Stopped`.
    pub fn heads(&mut self, alloc: Global) -> Result<List<HeadRow>, CoreError>
        ensures call { Answers K.Keeper (λ kept rows.
            heads_in_rows rows ≡ heads (processed kept)) result self.old self.new }
        ensures keeps { Continues K.Keeper (is_fault result) self.old self.new }
        ensures front { front_of result ≡ stop_front self.old.stopped None }
        ensures seen { IfErr result DecidesAlone }
        ensures rest { RestSame self.old self.new }
        ensures same { TellsSame K.Keeper self.old self.new }
    {
        kept_is_durable();
        if self.stopped {
            return Err(CoreError::Stopped);
        }
        match self.keeper.heads(alloc) {
            Ok(heads) => Ok(heads),
            Err(error) => {
                let error = CoreError::from(error);
                self.stopped = stops(error);
                Err(error)
            }
        }
    }

    /// The bytes of a stored block, processed or not, or none where it is not stored. It makes one read of the keeper.
    /// Refusals: `Stopped`.
    pub fn block(&mut self, alloc: Global, cid: &Cid) -> Result<Option<Bytes>, CoreError>
        ensures call { Answers K.Keeper (λ kept bytes.
            bytes ≡ bytes_at kept.graph cid.now) result self.old self.new }
        ensures keeps { Continues K.Keeper (is_fault result) self.old self.new }
        ensures front { front_of result ≡ stop_front self.old.stopped None }
        ensures seen { IfErr result DecidesAlone }
        ensures rest { RestSame self.old self.new }
        ensures same { TellsSame K.Keeper self.old self.new }
        ensures planned { self.old.stopped ≡ false → ReadsAsPlanned
            (K.schedule self.old.keeper) (K.schedule self.new.keeper) (is_fault result) }
    {
        kept_is_durable();
        if self.stopped {
            return Err(CoreError::Stopped);
        }
        match self.keeper.block(alloc, cid) {
            Ok(bytes) => Ok(bytes),
            Err(error) => {
                let error = CoreError::from(error);
                self.stopped = stops(error);
                Err(error)
            }
        }
    }

    /// The place of a block in the order of processing, from 0, or none where it is not processed. Takes no memory.
    /// Refusals: `Stopped`.
    pub fn position(&mut self, cid: &Cid) -> Result<Option<u64>, CoreError>
        ensures call { Answers K.Keeper (λ kept place.
            place ≡ position (same_cid cid.now) kept.order) result self.old self.new }
        ensures found { IfSome (K.told self.old.keeper) (λ kept. IfOk result (λ place.
            is_some place ≡ is_among kept.order cid.now)) }
        ensures keeps { Continues K.Keeper (is_fault result) self.old self.new }
        ensures front { front_of result ≡ stop_front self.old.stopped None }
        ensures rest { RestSame self.old self.new }
        ensures same { TellsSame K.Keeper self.old self.new }
        ensures no_memory { NoMemory result }
        ensures only { self.old.stopped ≡ false → IfErr result (λ error. error ≡ Refused.KeeperFault) }
    {
        kept_is_durable();
        if self.stopped {
            return Err(CoreError::Stopped);
        }
        match self.keeper.position(cid) {
            Ok(place) => Ok(place),
            Err(error) => {
                let error = CoreError::from(error);
                self.stopped = stops(error);
                Err(error)
            }
        }
    }

    /// The block at a place in the order of processing, or none past its end. Takes no memory. Refusals: `Stopped`.
    pub fn at(&mut self, position: u64) -> Result<Option<Cid>, CoreError>
        ensures call { Answers K.Keeper (λ kept cid. cid ≡ slice_get kept.order position) result self.old self.new }
        ensures keeps { Continues K.Keeper (is_fault result) self.old self.new }
        ensures front { front_of result ≡ stop_front self.old.stopped None }
        ensures rest { RestSame self.old self.new }
        ensures same { TellsSame K.Keeper self.old self.new }
        ensures no_memory { NoMemory result }
        ensures only { self.old.stopped ≡ false → IfErr result (λ error. error ≡ Refused.KeeperFault) }
    {
        kept_is_durable();
        if self.stopped {
            return Err(CoreError::Stopped);
        }
        match self.keeper.at(position) {
            Ok(cid) => Ok(cid),
            Err(error) => {
                let error = CoreError::from(error);
                self.stopped = stops(error);
                Err(error)
            }
        }
    }
}
