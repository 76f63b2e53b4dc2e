// A worker with a giver hands blocks over while another seat holds the turn.
ghost use Rattle.std.specs.Prelude.{◌≡◌, [], false, true, None, IfSome};
ghost use Rattle.mc_model.specs.State.{HasSoundMark};
ghost use Rattle.mc_node.specs.Entries.{is_sealed_log};
ghost use Rattle.mc_node.specs.Seats.{knows};
ghost use Rattle.mc_turn.specs.Seats.{IsSeatOf};
ghost use Rattle.mc_worker.specs.Lookups.{FoundFits};

use crate::relays::block_of;
use mc_base::{Bytes, Cid};
use mc_cast::write_cast;
use mc_core::Replica;
use mc_fetch::{Found, Job};
use mc_keep::Keeper;
use mc_keep_tests::{Trial, passes};
use mc_node::{Node, NodeSeat, Stored};
use mc_relay::{GiverEnd, open_relay};
use mc_worker::{Handover, ShopError};
use std::alloc::Global;
use std::marker::Brand;
use std::sync::Wait;
use std::test::Fail;

const LIMIT: u64 = 128;

// What a relay holds, and a group.
const FULL: u64 = 64;

type Shared<K> = Node<Stored<K, Brand>>;

type Place<K> = NodeSeat<Stored<K, Brand>, K>;

type Answer = Result<Handover, ShopError>;

// What was found under an identifier: these bytes, where they have its digest.
fn found_for(cid: &Cid, bytes: Bytes) -> Found
    ensures { FoundFits None cid.now result }
{
    if Cid::of(bytes.as_slice()) == *cid {
        return Found::Bytes(bytes);
    }
    Found::Missing
}

// The identifiers of so many blocks.
fn cids_of(alloc: Global, count: u64) -> Option<Vec<Cid>> {
    let Ok(mut cids) = Vec::with_capacity(alloc, 65) else {
        return None;
    };
    for number in 0..count {
        let Ok(block) = block_of(alloc, number) else {
            return None;
        };
        let Ok(()) = cids.push(block.cid) else {
            return None;
        };
    }
    Some(cids)
}

// A replica over this keeper that wants these blocks, with nothing in its inbox.
fn wanting<K: Keeper + Drop>(alloc: Global, keeper: K, cids: &[Cid]) -> Option<Replica<K>>
    requires { IfSome (K.told keeper) HasSoundMark }
    ensures runs { IfSome result (λ replica. replica.stopped ≡ false) }
    ensures inbox { IfSome result (λ replica. replica.inbox.items ≡ []) }
{
    let Ok(message) = write_cast(alloc, cids) else {
        return None;
    };
    let Ok(mut replica) = Replica::open(alloc, keeper) else {
        return None;
    };
    match replica.hear(alloc, message.as_slice()) {
        Ok(_) => Some(replica),
        Err(_) => None,
    }
}

// Two jobs of one seat.
fn two_jobs<K: Keeper, W: Wait>(
    alloc: Global,
    node: &Shared<K>,
    seat: &mut Place<K>,
    wait: &W,
) -> Option<(Job, Job)>
    requires own { IsSeatOf node.now.turn seat.old.seat }
    requires sealed { is_sealed_log (knows seat.old).seen ≡ true }
    ensures own { IsSeatOf node.now.turn seat.new.seat }
    ensures sealed { is_sealed_log (knows seat.new).seen ≡ true }
{
    let Ok(Some(first)) = node.take_job(alloc, seat, LIMIT, wait) else {
        return None;
    };
    let Ok(Some(second)) = node.take_job(alloc, seat, LIMIT, wait) else {
        return None;
    };
    Some((first, second))
}

// What is answered to a block that is delivered while another seat holds the turn.
fn while_held<K: Keeper, W: Wait>(
    alloc: Global,
    node: &Shared<K>,
    seat: &mut Place<K>,
    other: &mut Place<K>,
    giver: &mut Option<GiverEnd<Brand>>,
    job: Job,
    bytes: Bytes,
    wait: &W,
) -> Answer
    requires own { IsSeatOf node.now.turn seat.old.seat × IsSeatOf node.now.turn other.old.seat }
    requires sealed { is_sealed_log (knows seat.old).seen ≡ true }
    ensures own { IsSeatOf node.now.turn seat.new.seat × IsSeatOf node.now.turn other.new.seat }
    ensures sealed { is_sealed_log (knows seat.new).seen ≡ true }
{
    let found = found_for(&job.cid, bytes);
    let held = node.turn.take(&mut other.seat, wait);
    let answer = node.end_job(alloc, seat, giver, LIMIT, job, found, wait);
    node.turn.give(&mut other.seat, held);
    answer
}

// The first of two blocks is handed over while another seat holds the turn, and the second one after that.
fn both_answers<K: Keeper, W: Wait>(
    alloc: Global,
    node: &Shared<K>,
    seat: &mut Place<K>,
    other: &mut Place<K>,
    giver: &mut Option<GiverEnd<Brand>>,
    one: Bytes,
    two: Bytes,
    wait: &W,
) -> Option<(Answer, Answer)>
    requires own { IsSeatOf node.now.turn seat.old.seat × IsSeatOf node.now.turn other.old.seat }
    requires sealed { is_sealed_log (knows seat.old).seen ≡ true }
{
    let (first, second) = two_jobs(alloc, node, seat, wait)?;
    let queued = while_held(alloc, node, seat, other, giver, first, one, wait);
    let found = found_for(&second.cid, two);
    let committed = node.end_job(alloc, seat, giver, LIMIT, second, found, wait);
    Some((queued, committed))
}

// Whether the block with this number, which is that of the next job, is queued while another seat holds the turn.
fn queues<K: Keeper, W: Wait>(
    alloc: Global,
    node: &Shared<K>,
    seat: &mut Place<K>,
    other: &mut Place<K>,
    giver: &mut Option<GiverEnd<Brand>>,
    number: u64,
    wait: &W,
) -> bool
    requires own { IsSeatOf node.now.turn seat.old.seat × IsSeatOf node.now.turn other.old.seat }
    requires sealed { is_sealed_log (knows seat.old).seen ≡ true }
    ensures own { IsSeatOf node.now.turn seat.new.seat × IsSeatOf node.now.turn other.new.seat }
    ensures sealed { is_sealed_log (knows seat.new).seen ≡ true }
{
    let Ok(block) = block_of(alloc, number) else {
        return false;
    };
    let Ok(Some(job)) = node.take_job(alloc, seat, LIMIT, wait) else {
        return false;
    };
    let answer = while_held(alloc, node, seat, other, giver, job, block.bytes, wait);
    matches!(answer, Ok(Handover::Queued { word: 1 }))
}

// Whether as many blocks are queued so as a relay holds.
fn fills<K: Keeper, W: Wait>(
    alloc: Global,
    node: &Shared<K>,
    seat: &mut Place<K>,
    other: &mut Place<K>,
    giver: &mut Option<GiverEnd<Brand>>,
    wait: &W,
) -> bool
    requires own { IsSeatOf node.now.turn seat.old.seat × IsSeatOf node.now.turn other.old.seat }
    requires sealed { is_sealed_log (knows seat.old).seen ≡ true }
    ensures own { IsSeatOf node.now.turn seat.new.seat × IsSeatOf node.now.turn other.new.seat }
    ensures sealed { is_sealed_log (knows seat.new).seen ≡ true }
{
    for number in 0..FULL {
        if !queues(alloc, node, seat, other, giver, number, wait) {
            return false;
        }
    }
    true
}

// What is answered to a block more, once the turn is free.
fn beyond<K: Keeper, W: Wait>(
    alloc: Global,
    node: &Shared<K>,
    seat: &mut Place<K>,
    other: &mut Place<K>,
    giver: &mut Option<GiverEnd<Brand>>,
    wait: &W,
) -> Option<Answer>
    requires own { IsSeatOf node.now.turn seat.old.seat × IsSeatOf node.now.turn other.old.seat }
    requires sealed { is_sealed_log (knows seat.old).seen ≡ true }
{
    let Ok(block) = block_of(alloc, FULL) else {
        return None;
    };
    if !fills(alloc, node, seat, other, giver, wait) {
        return None;
    }
    let Ok(Some(job)) = node.take_job(alloc, seat, LIMIT, wait) else {
        return None;
    };
    let found = found_for(&job.cid, block.bytes);
    Some(node.end_job(alloc, seat, giver, LIMIT, job, found, wait))
}

// The same from a keeper on, with the giver of a new relay.
fn over_full<K: Keeper + Drop, W: Wait>(alloc: Global, keeper: K, wait: &W) -> Option<Answer>
    requires { IfSome (K.told keeper) HasSoundMark }
{
    let cids = cids_of(alloc, FULL + 1)?;
    let replica = wanting(alloc, keeper, cids.as_slice())?;
    let Ok((taker, givers)) = open_relay::<Brand>(alloc, 1) else {
        return None;
    };
    let Ok((node, mut seat)) = Shared::<K>::new(alloc, replica, true, Some(taker)) else {
        return None;
    };
    let mut other = node.split(&mut seat);
    let mut giver = givers.into_vec().pop();
    beyond(alloc, &node, &mut seat, &mut other, &mut giver, wait)
}

// The same from a keeper on, with the giver of a new relay. Whoever owns the node has one way out with it.
fn over<K: Keeper + Drop, W: Wait>(alloc: Global, keeper: K, wait: &W) -> Option<(Answer, Answer)>
    requires { IfSome (K.told keeper) HasSoundMark }
{
    let Ok(one) = block_of(alloc, 1) else {
        return None;
    };
    let Ok(two) = block_of(alloc, 2) else {
        return None;
    };
    let replica = wanting(alloc, keeper, &[one.cid, two.cid])?;
    let Ok((taker, givers)) = open_relay::<Brand>(alloc, 1) else {
        return None;
    };
    let Ok((node, mut seat)) = Shared::<K>::new(alloc, replica, true, Some(taker)) else {
        return None;
    };
    let mut other = node.split(&mut seat);
    let mut giver = givers.into_vec().pop();
    both_answers(
        alloc, &node, &mut seat, &mut other, &mut giver, one.bytes, two.bytes, wait,
    )
}

// What is tried here.
#[derive(Clone, Copy)]
enum Handovers {
    WhileHeld,
    BesideAFullRelay,
}

impl Trial for Handovers {
    fn passes<K: Keeper + Drop, W: Wait>(
        self,
        alloc: Global,
        keeper: K,
        wait: &W,
    ) -> Result<bool, Fail>
    where
        K::Desk: Drop,
    {
        match self {
            Handovers::WhileHeld => Ok(matches!(
                over(alloc, keeper, wait),
                Some((
                    Ok(Handover::Queued { word: 1 }),
                    Ok(Handover::Committed { processed: 2 })
                ))
            )),
            Handovers::BesideAFullRelay => Ok(matches!(
                over_full(alloc, keeper, wait),
                Some(Ok(Handover::Committed { processed: 64 }))
            )),
        }
    }
}

#[test]
fn a_held_turn_queues_a_block(rt: HostRuntime) -> Result<(), Fail> {
    assert!(rt; passes(Handovers::WhileHeld, rt.alloc(), &rt)?);
    Ok(())
}

// It is committed with 63 of the relay's, by one group, and the last of these stays there.
#[test]
fn a_block_that_a_full_relay_gives_back_is_one_of_its_group(rt: HostRuntime) -> Result<(), Fail> {
    assert!(rt; passes(Handovers::BesideAFullRelay, rt.alloc(), &rt)?);
    Ok(())
}
