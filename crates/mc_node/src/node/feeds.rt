// A feed is brought up to a node.
ghost use Rattle.std.specs.Prelude.{◌≡◌, false, true, IfErr, IfOk, OnErr};
ghost use Rattle.mc_turn.specs.Seats.{IsSeatOf};
ghost use Rattle.mc_node.specs.Entries.{StaysOpen, is_open, items};
ghost use Rattle.mc_node.specs.Feeds.{FeedDoes, FeedGoes, IsFeedError, IsFeedOf, IsPartFeed, IsWholeFeed, WasFeedOf};
ghost use Rattle.mc_node.specs.Feeds.{read_of};
ghost use Rattle.mc_node.specs.Seats.{knows};
ghost use Rattle.mc_node.specs.Views.{Turned};

use super::{Node, NodeSeat};
use crate::error::NodeFeedError;
use crate::stored::Stored;
use mc_core::CoreError;
use mc_feed::{Feed, Hook};
use mc_fetch::Naming;
use mc_keep::Keeper;
use mc_model::kept_is_durable;
use std::alloc::Global;
use std::sync::Wait;

impl<K: Keeper, J: Naming> Node<Stored<K, J>> {
    /// Passes the blocks that are processed when the turn is got to a feed, from its length on, and says how many were
    /// passed to it then: all of them, which on a node that isn't sealed are those that the seat has seen then. After
    /// a refusal the blocks that were passed are first ones of them, and after a want of memory the hook may have taken
    /// some first events of one more. It is a read of the replica, as `get` is, and the hook is told under the turn.
    /// Refusals: `Stopped`, exactly where the log says that the keeper has failed; then `Spent`, where the feed was
    /// spent before. Both leave the feed as it was. `KeeperFault` comes where this call noted that.
    ///
    /// Condition, where the keeper tells: the blocks that were passed are first ones of those that some log showed with
    /// which begins what the seat has seen, as they are where this seat brought the feed up last, or has learned of the
    /// seat that did, or where none were passed.
    pub fn feed<H: Hook, W: Wait>(
        &self,
        alloc: Global,
        seat: &mut NodeSeat<Stored<K, J>, K>,
        feed: &mut Feed<H>,
        wait: &W,
    ) -> Result<u64, NodeFeedError>
        requires own { IsSeatOf self.now.turn seat.old.seat }
        requires begins { WasFeedOf H.taken K.Keeper (knows seat.old).seen feed.old }
        ensures own { IsSeatOf self.now.turn seat.new.seat }
        ensures open { StaysOpen (knows seat.old).seen (knows seat.new).seen }
        ensures turned { Turned (knows seat.old) (knows seat.new) (λ old new.
            FeedDoes H.taken feed.old feed.new result (items K.Keeper old) (items K.Keeper new)) }
        ensures whole { is_open (knows seat.old).seen ≡ true →
            IfOk result (IsWholeFeed H.taken (items K.Keeper (knows seat.new).seen) feed.new) }
        ensures part { is_open (knows seat.old).seen ≡ true → feed.old.spent ≡ false →
            OnErr result (IsPartFeed H.taken (items K.Keeper (knows seat.new).seen) feed.new) }
        ensures begins { is_open (knows seat.old).seen ≡ true →
            IsFeedOf H.taken (items K.Keeper (knows seat.new).seen) feed.new }
        ensures goes { FeedGoes feed.old feed.new result }
    {
        kept_is_durable();
        let mut held = self.turn.take(&mut seat.seat, wait);
        let result = held.value.feed(alloc, feed);
        self.turn.give(&mut seat.seat, held);
        answer_of(result)
    }
}

// An answer of a read that passes blocks, as that of a feed.
fn answer_of(passed: Result<Option<u64>, CoreError>) -> Result<u64, NodeFeedError>
    requires errors { IfErr passed IsFeedError }
    ensures { read_of result ≡ passed }
{
    match passed {
        Ok(Some(count)) => Ok(count),
        Ok(None) => Err(NodeFeedError::Spent),
        Err(CoreError::Stopped) => Err(NodeFeedError::Stopped),
        Err(CoreError::Memory) => Err(NodeFeedError::Memory),
        Err(_) => Err(NodeFeedError::KeeperFault),
    }
}
