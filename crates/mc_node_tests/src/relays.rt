//! A relay of one thread and of two.
ghost use Rattle.std.specs.Prelude.{◌≡◌, All, length, IfOk, IfSome};
ghost use Rattle.mc_relay.specs.Ends.{IsGiverOf, IsTakerOf, taker_knows};

use mc_base::List;
use mc_block::{Verified, verify, write_block};
use mc_keep_tests::no_delta;
use mc_relay::{Giver, Relay, Taker};
use std::alloc::{AllocError, Global};
use std::marker::Brand;
use std::sync::Wait;
use std::test::Fail;
use std::thread::{Threads, join};

/// A block without links whose delta has this priority.
pub(crate) fn block_of(alloc: Global, priority: u64) -> Result<Verified, AllocError> {
    let made = write_block(alloc, &[], &no_delta(alloc, priority))?;
    let cid = made.cid;
    match verify(alloc, &cid, made.bytes) {
        Ok(item) => Ok(item),
        Err(_) => Err(AllocError),
    }
}

/// Pushes blocks of the priorities from 0 until one is handed back, and at most so many: how many were taken.
fn push_some<W: Wait>(
    wait: &W,
    alloc: Global,
    relay: &Relay<Brand>,
    giver: &mut Giver,
    most: u64,
) -> u64
    requires own { IsGiverOf relay.now giver.old }
    ensures own { IsGiverOf relay.now giver.new }
{
    for priority in 0..most {
        let Ok(item) = block_of(alloc, priority) else {
            return priority;
        };
        if relay.push(giver, item, wait).is_err() {
            return priority;
        }
    }
    most
}

/// Pops until the relay is empty, and at most so often: the sum of the priorities.
fn pop_some<W: Wait>(wait: &W, relay: &Relay<Brand>, taker: &mut Taker, most: u64) -> u64
    requires own { IsTakerOf relay.now taker.old }
    ensures own { IsTakerOf relay.now taker.new }
    ensures made { (taker_knows taker.new).made ≡ (taker_knows taker.old).made }
{
    let mut sum = 0u64;
    for _ in 0..most {
        match relay.pop(taker, wait) {
            Some(item) => sum = sum.wrapping_add(item.block.delta.priority),
            None => return sum,
        }
    }
    sum
}

/// How many blocks a new relay takes from one giver, the sum of the priorities of its first four, how many it takes
/// from another then, and how many are left at its end.
fn passed_on<W: Wait>(wait: &W, alloc: Global) -> Result<(u64, u64, u64, u64), AllocError> {
    let (relay, mut taker, givers) = Relay::<Brand>::new(alloc, 2)?;
    let mut givers = givers.into_vec();
    let (Some(mut first), Some(mut second)) = (givers.pop(), givers.pop()) else {
        return Err(AllocError);
    };
    let taken = push_some(wait, alloc, &relay, &mut first, 100);
    let sum = pop_some(wait, &relay, &mut taker, 4);
    let more = push_some(wait, alloc, &relay, &mut second, 100);
    let mut ends = List::with_capacity(alloc, 2)?;
    ends.push(first)?;
    ends.push(second)?;
    Ok((taken, sum, more, relay.close(taker, ends, wait)))
}

#[test]
fn a_relay_has_room_for_64(rt: HostRuntime) -> Result<(), Fail> {
    assert!(rt; passed_on(&rt, rt.alloc())? == (64, 6, 4, 64));
    Ok(())
}
