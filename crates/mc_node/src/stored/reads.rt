// The calls of a replica that only read. A fault of the keeper alone is noted.
ghost use Rattle.std.specs.Prelude.{◌≡◌, true, map, IfErr, IfOk};
ghost use Rattle.mc_turn.specs.Lists.{Begins};
ghost use Rattle.mc_key.specs.Prefix.{is_under};
ghost use Rattle.mc_model.specs.Answers as answers;
ghost use Rattle.mc_model.specs.Kept.{processed};
ghost use Rattle.mc_model.specs.Live.{value};
ghost use Rattle.mc_query.specs.Answers.{AreAnswers};
ghost use Rattle.mc_query.specs.Places.{pair_of, start_of};
ghost use Rattle.mc_core.specs.Exact.{DecidesAlone};
ghost use Rattle.mc_node.specs.Entries.{items};
ghost use Rattle.mc_node.specs.Moves.{ReadDoes, seen_by};

use super::Stored;
use super::entries::{note, noted};
use crate::node::Seen;
use mc_base::{Bytes, List};
use mc_core::{CoreError, replicas_only_grow};
use mc_fetch::Naming;
use mc_keep::Keeper;
use mc_model::kept_is_durable;
use mc_query::Pair;
use std::alloc::Global;

impl<K: Keeper, J: Naming> Stored<K, J> {
    // The value of a key.
    pub(crate) fn get(&mut self, alloc: Global, key: &str) -> Result<Seen<Option<Bytes>>, CoreError>
        ensures extends { Begins self.old.log.items self.new.log.items }
        ensures does { ReadDoes (λ kept found. found ≡ value (processed kept) key.now) result
            (items K.Keeper self.old.log.items) (items K.Keeper self.new.log.items) }
        ensures seen { IfErr result DecidesAlone }
    {
        replicas_only_grow();
        kept_is_durable();
        let length = match self.begin() {
            Ok(length) => length,
            Err(error) => return Err(error),
        };
        self.replica.is_sound();
        let result = self.replica.get(alloc, key);
        let entry = noted(&result, None, None);
        note(&mut self.log, &self.replica, entry);
        seen(length, result)
    }

    // The keys with a value that a prefix selects.
    pub(crate) fn query(
        &mut self,
        alloc: Global,
        prefix: &str,
        skip: u64,
        count: u64,
    ) -> Result<Seen<List<Pair>>, CoreError>
        ensures extends { Begins self.old.log.items self.new.log.items }
        ensures does { ReadDoes (λ kept pairs.
            map pair_of pairs ≡ answers.query (processed kept) (is_under prefix.now) skip count) result
            (items K.Keeper self.old.log.items) (items K.Keeper self.new.log.items) }
        ensures ascend { IfOk result (λ seen.
            AreAnswers (start_of prefix.now) true prefix.now count seen.answer) }
        ensures seen { IfErr result DecidesAlone }
    {
        replicas_only_grow();
        kept_is_durable();
        let length = match self.begin() {
            Ok(length) => length,
            Err(error) => return Err(error),
        };
        self.replica.is_sound();
        let result = self.replica.query(alloc, prefix, skip, count);
        let entry = noted(&result, None, None);
        note(&mut self.log, &self.replica, entry);
        seen(length, result)
    }
}

// The answer of a read, with how many processed blocks it is over.
pub(crate) fn seen<A>(length: u64, answer: Result<A, CoreError>) -> Result<Seen<A>, CoreError>
    ensures { result ≡ seen_by length answer }
{
    match answer {
        Ok(answer) => Ok(Seen { answer, length }),
        Err(error) => Err(error),
    }
}
