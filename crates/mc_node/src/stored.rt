// The value of a node: a replica beside its log.
ghost use Rattle.std.specs.Prelude.{◌≡◌, false, IfSome};
ghost use Rattle.mc_node.specs.Entries.{items_at, shown_at};
ghost use Rattle.mc_node.specs.Pieces.{AreRight};
ghost use Rattle.mc_node.specs.Props.{Right-prop};
ghost use Rattle.mc_node.specs.Ties.{IsTied};

use crate::entry::Entry;
use mc_core::Replica;
use mc_fetch::Naming;
use mc_keep::Keeper;
use mc_relay::TakerEnd;
use mc_turn::Story;
use std::marker::PhantomData;

mod ahead;
mod calls;
mod entries;
mod faces;
mod feeds;
mod groups;
mod jobs;
mod making;
mod reads;
mod takes;

/// A replica beside the log of what was done with it, and the taker of the relay by which workers hand blocks over, where
/// there is one. Its list is the log.
#[derive(Drop)]
pub struct Stored<K: Keeper, J: Naming> {
    // In a box, so that each turn moves a few words, and not some 2.6 KB.
    pub(crate) replica: Box<Replica<K>>,
    pub(crate) log: Vec<Entry<K>>,
    pub(crate) taker: Option<TakerEnd<J>>,
    of: PhantomData<J>,
    ghost tied: { IsTied (record { walks = J.walks; most = J.most; found = J.found; kept = J.kept })
        (shown_at K.told K.fuse K.own K.faults K.quiet K.schedule replica.value)
        (items_at K.told K.fuse K.own K.faults K.quiet K.schedule log.items) },
    ghost right: { IfSome taker (λ end. AreRight J.found replica.value.inbox.items) } by { Right-prop taker J.found replica.value.inbox.items },
}

impl<K: Keeper, J: Naming> Story for Stored<K, J> {
    type Entry = Entry<K>;

    ghost list = { λ stored. stored.log.items };

    fn length(&self) -> u64 {
        self.log.len() as u64
    }
}
