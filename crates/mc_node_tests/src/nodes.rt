// A node over a keeper in memory.
ghost use Rattle.std.specs.Prelude.{◌≡◌, true, IfSome};
ghost use Rattle.mc_node.specs.Entries.{is_open};
ghost use Rattle.mc_node.specs.Seats.{knows};
ghost use Rattle.mc_turn.specs.Seats.{IsSeatOf};
ghost use Rattle.mc_model.specs.State.{HasSoundMark};

use mc_base::{Bytes, Cid};
use mc_cast::write_cast;
use mc_core::CoreError;
use mc_core_tests::{has_processed, opened};
use mc_fetch::Naming;
use mc_keep::Keeper;
use mc_keep_mem::FaultPlan;
use mc_keep_tests::{Trial, passes, passes_over};
use mc_node::{Node, NodeSeat, Seen, Stored};
use std::alloc::{AllocError, Global};
use std::marker::Brand;
use std::sync::Wait;
use std::test::Fail;

fn is_value(seen: &Seen<Option<Bytes>>, value: &[u8], length: u64) -> bool {
    match &seen.answer {
        Some(found) => found.as_slice() == value && seen.length == length,
        None => false,
    }
}

// The block of a put through the first seat, where the second one reads and lists it.
fn shown<K: Keeper, J: Naming, W: Wait>(
    node: &Node<Stored<K, J>>,
    alloc: Global,
    first: &mut NodeSeat<Stored<K, J>, K>,
    second: &mut NodeSeat<Stored<K, J>, K>,
    wait: &W,
) -> Result<Option<Cid>, CoreError>
    requires own { IsSeatOf node.now.turn first.old.seat × IsSeatOf node.now.turn second.old.seat }
    requires open { (is_open (knows first.old).seen ≡ true) × (is_open (knows second.old).seen ≡ true) }
    ensures own { IsSeatOf node.now.turn first.new.seat × IsSeatOf node.now.turn second.new.seat }
    ensures open { (is_open (knows first.new).seen ≡ true) × (is_open (knows second.new).seen ≡ true) }
{
    let written = node.put(alloc, first, "/key", b"value", wait)?;
    let read = node.get(alloc, second, "/key", wait)?;
    let listed = node.query(alloc, second, "/", 0, 10, wait)?;
    if written.position == 0 && is_value(&read, b"value", 1) && listed.answer.len() == 1 {
        return Ok(Some(written.cid));
    }
    Ok(None)
}

// Whether a delete through the second seat hides the key from the first one.
fn hides<K: Keeper, J: Naming, W: Wait>(
    node: &Node<Stored<K, J>>,
    alloc: Global,
    first: &mut NodeSeat<Stored<K, J>, K>,
    second: &mut NodeSeat<Stored<K, J>, K>,
    wait: &W,
) -> Result<bool, CoreError>
    requires own { IsSeatOf node.now.turn first.old.seat × IsSeatOf node.now.turn second.old.seat }
    requires open { (is_open (knows first.old).seen ≡ true) × (is_open (knows second.old).seen ≡ true) }
    ensures own { IsSeatOf node.now.turn first.new.seat × IsSeatOf node.now.turn second.new.seat }
    ensures open { (is_open (knows first.new).seen ≡ true) × (is_open (knows second.new).seen ≡ true) }
{
    let deleted = node.delete(alloc, second, "/key", wait)?;
    let hidden = node.get(alloc, first, "/key", wait)?;
    Ok(deleted.blocks == 1 && hidden.answer.is_none() && hidden.length == 2)
}

// Whether nothing is wanted where this block is told.
fn is_known<K: Keeper, J: Naming, W: Wait>(
    node: &Node<Stored<K, J>>,
    alloc: Global,
    seat: &mut NodeSeat<Stored<K, J>, K>,
    cid: Cid,
    wait: &W,
) -> Result<bool, CoreError>
    requires own { IsSeatOf node.now.turn seat.old.seat }
    requires open { is_open (knows seat.old).seen ≡ true }
    ensures own { IsSeatOf node.now.turn seat.new.seat }
{
    let message = write_cast(alloc, &[cid])?;
    Ok(node.hear(alloc, seat, message.as_slice(), wait)?.queued == 0)
}

// A put is read, hidden and told by another seat of the same node.
fn agree<K: Keeper, J: Naming, W: Wait>(
    node: &Node<Stored<K, J>>,
    alloc: Global,
    first: &mut NodeSeat<Stored<K, J>, K>,
    second: &mut NodeSeat<Stored<K, J>, K>,
    wait: &W,
) -> Result<bool, CoreError>
    requires own { IsSeatOf node.now.turn first.old.seat × IsSeatOf node.now.turn second.old.seat }
    requires open { (is_open (knows first.old).seen ≡ true) × (is_open (knows second.old).seen ≡ true) }
    ensures own { IsSeatOf node.now.turn first.new.seat × IsSeatOf node.now.turn second.new.seat }
{
    let Some(cid) = shown(node, alloc, first, second, wait)? else {
        return Ok(false);
    };
    Ok(hides(node, alloc, first, second, wait)? && is_known(node, alloc, first, cid, wait)?)
}

// The same from a keeper on. Whoever owns the node has one way out with it, since each proves the dropping of all that
// it holds.
fn shares<K: Keeper + Drop, W: Wait>(keeper: K, alloc: Global, wait: &W) -> Result<bool, CoreError>
    requires { IfSome (K.told keeper) HasSoundMark }
{
    let replica = opened(alloc, keeper)?;
    let Ok((node, mut first)) = Node::<Stored<K, Brand>>::new(alloc, replica, false, None) else {
        return Err(CoreError::Memory);
    };
    let mut second = node.split(&mut first);
    let agreed = agree(&node, alloc, &mut first, &mut second, wait);
    node.join(&mut first, second);
    let left = node.close(first, wait);
    let is_left = has_processed(&left, 2);
    drop(left);
    Ok(agreed? && is_left)
}

fn is_error<T>(answer: &Result<T, CoreError>, error: CoreError) -> bool {
    match answer {
        Ok(_) => false,
        Err(other) => *other == error,
    }
}

// After a read that failed the node has stopped, and so has the replica that it gives back.
fn stops_for_good<K: Keeper + Drop, W: Wait>(
    keeper: K,
    alloc: Global,
    wait: &W,
) -> Result<bool, CoreError>
    requires { IfSome (K.told keeper) HasSoundMark }
{
    let replica = opened(alloc, keeper)?;
    let Ok((node, mut seat)) = Node::<Stored<K, Brand>>::new(alloc, replica, false, None) else {
        return Err(CoreError::Memory);
    };
    let failed = node.get(alloc, &mut seat, "/key", wait);
    let stopped = node.get(alloc, &mut seat, "/key", wait);
    let left = node.close(seat, wait);
    Ok(
        is_error(&failed, CoreError::KeeperFault)
            && is_error(&stopped, CoreError::Stopped)
            && is_error(&left.report(), CoreError::Stopped),
    )
}

// A plan by which the third read fails: the first two are the opening's.
fn failing(alloc: Global) -> Result<FaultPlan, AllocError> {
    let mut plan = FaultPlan::nothing(alloc);
    plan.reads.push(3)?;
    Ok(plan)
}

// What is tried here.
#[derive(Clone, Copy)]
enum Nodes {
    Share,
    StopForGood,
}

impl Trial for Nodes {
    fn passes<K: Keeper + Drop, W: Wait>(
        self,
        alloc: Global,
        keeper: K,
        wait: &W,
    ) -> Result<bool, Fail>
    where
        K::Desk: Drop,
    {
        let answer = match self {
            Nodes::Share => shares(keeper, alloc, wait),
            Nodes::StopForGood => stops_for_good(keeper, alloc, wait),
        };
        Ok(answer?)
    }
}

#[test]
fn two_seats_share_a_replica(rt: HostRuntime) -> Result<(), Fail> {
    assert!(rt; passes(Nodes::Share, rt.alloc(), &rt)?);
    Ok(())
}

#[test]
fn a_fault_stops_a_node(rt: HostRuntime) -> Result<(), Fail> {
    let alloc = rt.alloc();
    assert!(rt; passes_over(Nodes::StopForGood, alloc, failing(alloc)?, &rt)?);
    Ok(())
}
