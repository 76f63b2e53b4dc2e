// A feed is brought up to the replica.
ghost use Rattle.std.specs.Prelude.{◌≡◌, false, true, IfErr, IfOk, IfSome, OnErr};
ghost use Rattle.mc_turn.specs.Lists.{Begins};
ghost use Rattle.mc_model.specs.Kept.{processed};
ghost use Rattle.mc_past.specs.Passings.{Goes, IsFed};
ghost use Rattle.mc_node.specs.Entries.{is_open, items};
ghost use Rattle.mc_node.specs.Feeds.{IsFeedError, IsPartFeed, IsWholeFeed, PassDoes, PassGoes};

use super::Stored;
use super::entries::{note, noted};
use mc_core::{CoreError, replicas_only_grow};
use mc_feed::{Feed, Hook};
use mc_fetch::Naming;
use mc_keep::Keeper;
use mc_model::kept_is_durable;
use mc_past::pass_new;
use std::alloc::Global;

impl<K: Keeper, J: Naming> Stored<K, J> {
    // Passes the processed blocks to a feed from its length on, and says how many were passed then, or none where it
    // was spent.
    pub(crate) fn feed<H: Hook>(
        &mut self,
        alloc: Global,
        feed: &mut Feed<H>,
    ) -> Result<Option<u64>, CoreError>
        requires begins { IfSome (K.told self.old.replica.value.keeper) (λ kept.
            IsFed H.taken (processed kept) feed.old) }
        ensures extends { Begins self.old.log.items self.new.log.items }
        ensures does { PassDoes H.taken feed.old feed.new result (items K.Keeper self.old.log.items)
            (items K.Keeper self.new.log.items) }
        ensures whole { is_open self.old.log.items ≡ true → IfOk result (λ passed. IfSome passed
            (IsWholeFeed H.taken (items K.Keeper self.new.log.items) feed.new)) }
        ensures part { is_open self.old.log.items ≡ true → feed.old.spent ≡ false →
            OnErr result (IsPartFeed H.taken (items K.Keeper self.new.log.items) feed.new) }
        ensures goes { PassGoes feed.old feed.new result }
        ensures errors { IfErr result IsFeedError }
    {
        replicas_only_grow();
        kept_is_durable();
        match self.begin() {
            Ok(_) => {}
            Err(error) => return Err(error),
        }
        self.replica.is_sound();
        let result = pass_new(&mut self.replica, alloc, feed);
        let entry = noted(&result, None, None);
        note(&mut self.log, &self.replica, entry);
        result
    }
}
