// The calls of a node that only read its replica.
ghost use Rattle.std.specs.Prelude.{◌≡◌, true, map, IfErr, IfOk};
ghost use Rattle.mc_turn.specs.Seats.{IsSeatOf};
ghost use Rattle.mc_key.specs.Prefix.{is_under};
ghost use Rattle.mc_model.specs.Answers as answers;
ghost use Rattle.mc_model.specs.Kept.{processed};
ghost use Rattle.mc_model.specs.Live.{value};
ghost use Rattle.mc_query.specs.Answers.{AreAnswers};
ghost use Rattle.mc_query.specs.Places.{pair_of, start_of};
ghost use Rattle.mc_core.specs.Exact.{DecidesAlone};
ghost use Rattle.mc_node.specs.Entries.{StaysOpen, items};
ghost use Rattle.mc_node.specs.Moves.{ReadDoes};
ghost use Rattle.mc_node.specs.Seats.{knows};
ghost use Rattle.mc_node.specs.Tries.{IfFree, Tries};
ghost use Rattle.mc_node.specs.Views.{Turned};

use super::{Node, NodeSeat, Seen};
use crate::error::TryError;
use crate::stored::Stored;
use mc_base::{Bytes, List};
use mc_core::CoreError;
use mc_fetch::Naming;
use mc_keep::Keeper;
use mc_query::Pair;
use std::alloc::Global;
use std::sync::Wait;

impl<K: Keeper, J: Naming> Node<Stored<K, J>> {
    /// The value of a key over the blocks that are processed when the turn is got, or none where it has none. On a
    /// node that isn't sealed these begin with all that the seat has seen. Refusals: `Stopped`, exactly where the log says that the keeper has
    /// failed.
    pub fn get<W: Wait>(
        &self,
        alloc: Global,
        seat: &mut NodeSeat<Stored<K, J>, K>,
        key: &str,
        wait: &W,
    ) -> Result<Seen<Option<Bytes>>, CoreError>
        requires own { IsSeatOf self.now.turn seat.old.seat }
        ensures own { IsSeatOf self.now.turn seat.new.seat }
        ensures open { StaysOpen (knows seat.old).seen (knows seat.new).seen }
        ensures turned { Turned (knows seat.old) (knows seat.new) (λ old new.
            ReadDoes (λ kept found. found ≡ value (processed kept) key.now) result (items K.Keeper old)
            (items K.Keeper new)) }
        ensures seen { IfErr result DecidesAlone }
    {
        let mut held = self.turn.take(&mut seat.seat, wait);
        let result = held.value.get(alloc, key);
        self.turn.give(&mut seat.seat, held);
        result
    }

    /// The keys with a value that a prefix selects, ascending by their bytes, each with its value: those after the
    /// first `skip` of them, and at most `count`; over every keeper they ascend, are selected and are at most so many.
    /// The rest is as of `get`.
    pub fn query<W: Wait>(
        &self,
        alloc: Global,
        seat: &mut NodeSeat<Stored<K, J>, K>,
        prefix: &str,
        skip: u64,
        count: u64,
        wait: &W,
    ) -> Result<Seen<List<Pair>>, CoreError>
        requires own { IsSeatOf self.now.turn seat.old.seat }
        ensures own { IsSeatOf self.now.turn seat.new.seat }
        ensures open { StaysOpen (knows seat.old).seen (knows seat.new).seen }
        ensures turned { Turned (knows seat.old) (knows seat.new) (λ old new.
            ReadDoes (λ kept pairs. map pair_of pairs ≡ answers.query (processed kept)
            (is_under prefix.now) skip count) result
            (items K.Keeper old) (items K.Keeper new)) }
        ensures ascend { IfOk result (λ seen.
            AreAnswers (start_of prefix.now) true prefix.now count seen.answer) }
        ensures seen { IfErr result DecidesAlone }
    {
        let mut held = self.turn.take(&mut seat.seat, wait);
        let result = held.value.query(alloc, prefix, skip, count);
        self.turn.give(&mut seat.seat, held);
        result
    }

    /// The value of a key, as `get` answers it, where the turn is free. Makes one exchange, and doesn't wait: `Busy`
    /// comes exactly where that found a held turn.
    pub fn try_get(
        &self,
        alloc: Global,
        seat: &mut NodeSeat<Stored<K, J>, K>,
        key: &str,
    ) -> Result<Seen<Option<Bytes>>, TryError>
        requires own { IsSeatOf self.now.turn seat.old.seat }
        ensures own { IsSeatOf self.now.turn seat.new.seat }
        ensures open { StaysOpen (knows seat.old).seen (knows seat.new).seen }
        ensures tried { Tries result (knows seat.old) (knows seat.new) }
        ensures turned { IfFree result (λ answer. Turned (knows seat.old) (knows seat.new) (λ old new.
            ReadDoes (λ kept found. found ≡ value (processed kept) key.now) answer (items K.Keeper old)
            (items K.Keeper new))) }
        ensures seen { IfFree result (λ answer. IfErr answer DecidesAlone) }
    {
        match self.turn.try_take(&mut seat.seat) {
            Ok(held) => {
                let mut held = held;
                let result = held.value.get(alloc, key);
                self.turn.give(&mut seat.seat, held);
                match result {
                    Ok(found) => Ok(found),
                    Err(error) => Err(TryError::Core(error)),
                }
            }
            Err(busy) => Err(TryError::Busy { word: busy.word }),
        }
    }
}
