// The calls of a node that change its replica: each takes the turn, makes one call of the replica, and gives the turn
// back.
ghost use Rattle.std.specs.Prelude.{◌≡◌, true, IfErr};
ghost use Rattle.mc_turn.specs.Seats.{IsSeatOf};
ghost use Rattle.mc_core.specs.Exact.{DecidesAlone};
ghost use Rattle.mc_node.specs.Entries.{StaysOpen, is_open, items};
ghost use Rattle.mc_node.specs.Moves.{DeleteDoes, HearDoes, PutDoes};
ghost use Rattle.mc_node.specs.Seats.{knows};
ghost use Rattle.mc_node.specs.Views.{Turned};

use super::{Node, NodeSeat};
use crate::stored::Stored;
use mc_core::{CoreError, Deleted, Heard, Written};
use mc_fetch::Naming;
use mc_keep::Keeper;
use std::alloc::Global;
use std::sync::Wait;

impl<K: Keeper, J: Naming> Node<Stored<K, J>> {
    /// Puts, as a replica does, over the blocks that are processed when the turn is got. The seat has then seen the
    /// entry of the block, whose place is the seat's. Refusals are a replica's: `Stopped` comes exactly where the log
    /// says that the keeper has failed, and `KeeperFault` where this call noted that. Condition: the node isn't
    /// sealed.
    pub fn put<W: Wait>(
        &self,
        alloc: Global,
        seat: &mut NodeSeat<Stored<K, J>, K>,
        key: &str,
        value: &[u8],
        wait: &W,
    ) -> Result<Written, CoreError>
        requires own { IsSeatOf self.now.turn seat.old.seat }
        requires unsealed { is_open (knows seat.old).seen ≡ true }
        ensures own { IsSeatOf self.now.turn seat.new.seat }
        ensures open { StaysOpen (knows seat.old).seen (knows seat.new).seen }
        ensures turned { Turned (knows seat.old) (knows seat.new) (λ old new.
            PutDoes key.now value.now result (items K.Keeper old) (items K.Keeper new)) }
    {
        let mut held = self.turn.take(&mut seat.seat, wait);
        let result = held.value.put(alloc, key, value);
        self.turn.give(&mut seat.seat, held);
        result
    }

    /// Deletes, as a replica does, over the blocks that are processed when the turn is got. All its blocks have one
    /// entry, also where there are none; a want of memory may leave one too. Refusals as of `put`. Condition: the
    /// node isn't sealed.
    pub fn delete<W: Wait>(
        &self,
        alloc: Global,
        seat: &mut NodeSeat<Stored<K, J>, K>,
        key: &str,
        wait: &W,
    ) -> Result<Deleted, CoreError>
        requires own { IsSeatOf self.now.turn seat.old.seat }
        requires unsealed { is_open (knows seat.old).seen ≡ true }
        ensures own { IsSeatOf self.now.turn seat.new.seat }
        ensures open { StaysOpen (knows seat.old).seen (knows seat.new).seen }
        ensures turned { Turned (knows seat.old) (knows seat.new) (λ old new.
            DeleteDoes key.now result (items K.Keeper old) (items K.Keeper new)) }
    {
        let mut held = self.turn.take(&mut seat.seat, wait);
        let result = held.value.delete(alloc, key);
        self.turn.give(&mut seat.seat, held);
        result
    }

    /// Hears a broadcast, as a replica does; over every keeper the blocks that come to waiting are among those that it
    /// names. Refusals as of `put`, but that none is for a block. Condition: the node isn't sealed.
    pub fn hear<W: Wait>(
        &self,
        alloc: Global,
        seat: &mut NodeSeat<Stored<K, J>, K>,
        message: &[u8],
        wait: &W,
    ) -> Result<Heard, CoreError>
        requires own { IsSeatOf self.now.turn seat.old.seat }
        requires unsealed { is_open (knows seat.old).seen ≡ true }
        ensures own { IsSeatOf self.now.turn seat.new.seat }
        ensures open { StaysOpen (knows seat.old).seen (knows seat.new).seen }
        ensures turned { Turned (knows seat.old) (knows seat.new) (λ old new.
            HearDoes message.now result (items K.Keeper old) (items K.Keeper new)) }
        ensures seen { IfErr result DecidesAlone }
    {
        let mut held = self.turn.take(&mut seat.seat, wait);
        let result = held.value.hear(alloc, message);
        self.turn.give(&mut seat.seat, held);
        result
    }
}
