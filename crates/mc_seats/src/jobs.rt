// A job of a replica: it begins, and what was found for it is delivered, or it is given back.
ghost use Rattle.std.specs.Prelude.{◌≡◌, List, [], false};
ghost use Rattle.mc_fetch.specs.Fits.{FoundHas};
ghost use Rattle.mc_fetch.specs.declared.plants.Planted.{Planted};
ghost use Rattle.mc_core.specs.Jobs.{found_in, is_known};
ghost use Rattle.mc_seats.specs.Fetching.{IsStepReply};
ghost use Rattle.mc_seats.specs.Keepers.{keeper_of};
ghost use Rattle.mc_seats.specs.StepParts.{BacksAt, BeginsAt, DeliversAt, IsFlying, begun_of, up};
ghost use Rattle.mc_seats.specs.Words.{place};

use crate::ActError;
use crate::replies::answer;
use crate::seat::{Held, Seat};
use mc_base::Cid;
use mc_core::Replica;
use mc_fetch::{Delivered, Found, Job};
use mc_keep::Keeper;
use mc_script::Reply;
use std::alloc::Global;

/// Begins a job of the replica in a seat, for the first block that waits, or says what is answered in its place.
pub fn begin_at<K: Keeper>(
    seat: &mut Seat<K>,
    alloc: Global,
) -> Result<Result<Job, Reply>, ActError>
    ensures begins { BeginsAt K.Keeper result (place K.Keeper seat.old) (place K.Keeper seat.new)
        (keeper_of seat.old) (keeper_of seat.new) }
{
    match &mut seat.held {
        Held::Up(replica) => begin(replica, alloc),
        Held::Down(_) => Ok(Err(Reply::Stopped)),
    }
}

// The same of a replica.
fn begin<K: Keeper>(replica: &mut Replica<K>, alloc: Global) -> Result<Result<Job, Reply>, ActError>
    ensures begins { (planted : List Planted) → BeginsAt K.Keeper result (up K.Keeper planted replica.old)
        (up K.Keeper planted replica.new) replica.old.keeper replica.new.keeper }
{
    match replica.next_job(alloc) {
        Ok(next) => Ok(begun(next)),
        Err(error) => match answer(error) {
            Ok(reply) => Ok(Err(reply)),
            Err(error) => Err(error),
        },
    }
}

// The job that begins; where nothing waits there is none.
fn begun(next: Option<Job>) -> Result<Job, Reply>
    ensures { result ≡ begun_of next }
{
    match next {
        Some(job) => Ok(job),
        None => Err(Reply::Idle),
    }
}

/// Delivers what was found for a job of the replica in a seat.
pub fn deliver_at<K: Keeper>(
    seat: &mut Seat<K>,
    alloc: Global,
    cid: Cid,
    found: Found,
) -> Result<Reply, ActError>
    requires flying { IsFlying cid (place K.Keeper seat.old) }
    requires digest { FoundHas cid found }
    ensures delivers { DeliversAt K.Keeper cid (found_in found) result (place K.Keeper seat.old)
        (place K.Keeper seat.new) (keeper_of seat.old) (keeper_of seat.new) }
{
    match &mut seat.held {
        Held::Up(replica) => deliver(replica, alloc, cid, found),
        Held::Down(_) => unreachable!(),
    }
}

// The same of a replica.
fn deliver<K: Keeper>(
    replica: &mut Replica<K>,
    alloc: Global,
    cid: Cid,
    found: Found,
) -> Result<Reply, ActError>
    requires flying { IsFlying cid (up K.Keeper [] replica.old) }
    requires digest { FoundHas cid found }
    ensures delivers { (planted : List Planted) → DeliversAt K.Keeper cid (found_in found) result
        (up K.Keeper planted replica.old) (up K.Keeper planted replica.new)
        replica.old.keeper replica.new.keeper }
{
    match replica.deliver(alloc, Job { cid, own: None }, found) {
        Ok(delivered) => Ok(reply_to(delivered)),
        Err(error) => answer(error),
    }
}

/// Gives a job of the replica in a seat back.
pub fn give_back_at<K: Keeper>(seat: &mut Seat<K>, cid: Cid)
    requires flying { IsFlying cid (place K.Keeper seat.old) }
    ensures backs { BacksAt K.Keeper cid (place K.Keeper seat.old) (place K.Keeper seat.new)
        (keeper_of seat.old) (keeper_of seat.new) }
{
    match &mut seat.held {
        Held::Up(replica) => give_back(replica, cid),
        Held::Down(_) => unreachable!(),
    }
}

// The same of a replica.
fn give_back<K: Keeper>(replica: &mut Replica<K>, cid: Cid)
    requires flying { IsFlying cid (up K.Keeper [] replica.old) }
    ensures backs { (planted : List Planted) → BacksAt K.Keeper cid (up K.Keeper planted replica.old)
        (up K.Keeper planted replica.new) replica.old.keeper replica.new.keeper }
{
    replica.give_back(Job { cid, own: None })
}

// What is answered for a delivery of a block that was in flight.
fn reply_to(delivered: Delivered) -> Reply
    requires flew { is_known delivered ≡ false }
    ensures { IsStepReply delivered result }
{
    match delivered {
        Delivered::Processed { .. } => Reply::Processed,
        Delivered::Missing => Reply::Missing,
        Delivered::Bad { damage } => Reply::Bad {
            damage: damage as u64,
        },
        Delivered::Known => unreachable!(),
    }
}
