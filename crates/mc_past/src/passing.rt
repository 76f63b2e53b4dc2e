// What is new of a replica is passed to a feed.
ghost use Rattle.std.specs.Prelude.{◌≡◌, false, true, None, IfErr, IfSome, OnErr};
ghost use Rattle.mc_keep.specs.Causes.{IfTold};
ghost use Rattle.mc_model.specs.Kept.{processed};
ghost use Rattle.mc_core.specs.Exact.{DecidesAlone, IfRefused, RestSame, front_of, stop_front};
ghost use Rattle.mc_core.specs.Refusals.{is_fault};
ghost use Rattle.mc_core.specs.Words.{Answers, Continues, TellsSame};
ghost use Rattle.mc_past.specs.Looks.{Looks};
ghost use Rattle.mc_past.specs.Passings.{FedUpTo, Goes, GoesOn, IsFed, IsFedTo, PassesAll, PassesOne};

use crate::reads::{block_at, has_stopped};
use mc_core::{CoreError, Replica};
use mc_feed::{Feed, FeedRefused, Hook};
use mc_keep::Keeper;
use mc_model::kept_is_durable;
use std::alloc::Global;

/// Passes the processed blocks from the feed's length on to the feed, and says how many were passed to it then, which
/// are all; or none where the feed was spent before, and then it stays as it was. What is said of the blocks holds
/// where those that were passed before are the first ones. After a want of memory the hook may have taken some first
/// events of one block more. `Memory` comes also where the positions reach `u64::MAX`. Refusals: `Stopped`.
pub fn pass_new<K: Keeper, H: Hook>(
    replica: &mut Replica<K>,
    alloc: Global,
    feed: &mut Feed<H>,
) -> Result<Option<u64>, CoreError>
    ensures call { Answers K.Keeper (λ kept passed.
        PassesAll H.taken (processed kept) feed.old feed.new passed) result replica.old replica.new }
    ensures part { OnErr result (IfSome (K.told replica.old.keeper) (λ kept.
        feed.old.spent ≡ false → IsFed H.taken (processed kept) feed.old →
        FedUpTo H.taken (processed kept) feed.new)) }
    ensures goes { Goes feed.old feed.new result }
    ensures keeps { Continues K.Keeper (is_fault result) replica.old replica.new }
    ensures front { front_of result ≡ stop_front replica.old.stopped None }
    ensures seen { IfErr result DecidesAlone }
    ensures rest { RestSame replica.old replica.new }
    ensures same { TellsSame K.Keeper replica.old replica.new }
{
    kept_is_durable();
    if has_stopped(replica) {
        return Err(CoreError::Stopped);
    }
    pass_rest(replica, alloc, feed)
}

// Passes what is new of a replica that runs.
fn pass_rest<K: Keeper, H: Hook>(
    replica: &mut Replica<K>,
    alloc: Global,
    feed: &mut Feed<H>,
) -> Result<Option<u64>, CoreError>
    requires runs { replica.old.stopped ≡ false }
    ensures passes { IfTold (K.told replica.old.keeper) result (λ kept passed.
        PassesAll H.taken (processed kept) feed.old feed.new passed) }
    ensures part { OnErr result (IfSome (K.told replica.old.keeper) (λ kept.
        feed.old.spent ≡ false → IsFed H.taken (processed kept) feed.old →
        FedUpTo H.taken (processed kept) feed.new)) }
    ensures goes { Goes feed.old feed.new result }
    ensures refused { IfRefused result ⊥ }
    ensures looks { Looks K.Keeper (is_fault result) replica.old replica.new }
{
    if feed.is_spent() {
        return Ok(None);
    }
    let mut position = feed.length();
    while position < u64::MAX {
        match pass_one(replica, alloc, position, feed) {
            Ok(true) => position += 1,
            Ok(false) => return Ok(Some(position)),
            Err(error) => return Err(error),
        }
    }
    Err(CoreError::Memory)
}

// Passes the block at a position to a feed that isn't spent, and says whether there is one.
fn pass_one<K: Keeper, H: Hook>(
    replica: &mut Replica<K>,
    alloc: Global,
    position: u64,
    feed: &mut Feed<H>,
) -> Result<bool, CoreError>
    requires runs { replica.old.stopped ≡ false }
    requires unspent { feed.old.spent ≡ false }
    ensures passes { IfTold (K.told replica.old.keeper) result (λ kept some.
        PassesOne H.taken (processed kept) some position feed.old feed.new) }
    ensures part { OnErr result (IfSome (K.told replica.old.keeper) (λ kept.
        IsFedTo H.taken (processed kept) position feed.old → FedUpTo H.taken (processed kept) feed.new)) }
    ensures goes { GoesOn feed.new result }
    ensures refused { IfRefused result ⊥ }
    ensures looks { Looks K.Keeper (is_fault result) replica.old replica.new }
{
    match block_at(replica, alloc, position) {
        Ok(Some(block)) => match feed.pass(alloc, &block) {
            Ok(()) => Ok(true),
            Err(FeedRefused::Memory) => Err(CoreError::Memory),
            Err(FeedRefused::Spent) => unreachable!(),
        },
        Ok(None) => Ok(false),
        Err(error) => Err(error),
    }
}
