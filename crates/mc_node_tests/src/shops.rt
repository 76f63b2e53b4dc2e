// A node whose turn another thread holds, and a sealed one that two workers call.
ghost use Rattle.std.specs.Prelude.{◌≡◌, false, IfSome};
ghost use Rattle.mc_model.specs.State.{HasSoundMark};
ghost use Rattle.mc_turn.specs.Seats.{IsSeatOf};

use mc_base::{Cid, List};
use mc_core::Replica;
use mc_core_tests::opened;
use mc_fetch::{Delivered, Found};
use mc_keep::Keeper;
use mc_keep_tests::HandMade;
use mc_node::{Hired, Node, NodeSeat, Stored, TryError};
use mc_worker::{HandEnd, Handover, Shop, ShopError};
use std::alloc::Global;
use std::marker::Brand;
use std::sync::Wait;
use std::sync::atomic::AtomicU64;
use std::sync::atomic::Ordering::SeqCst;
use std::test::Fail;
use std::thread::{Threads, join};

const TURNS: u64 = 300_000_000;

type Shared<K> = Node<Stored<K, Brand>>;

type Place<K> = NodeSeat<Stored<K, Brand>, K>;

// A keeper that holds nothing, and gives as many rows as it is asked for.
fn nothing(alloc: Global) -> HandMade {
    HandMade::of_values(alloc, List::new(alloc), u64::MAX)
}

// What a read that doesn't wait answers: the word where the turn is held, and 0 where it answers.
fn word_of<K: Keeper>(alloc: Global, node: &Shared<K>, seat: &mut Place<K>) -> Option<u64>
    requires own { IsSeatOf node.now.turn seat.old.seat }
    ensures own { IsSeatOf node.now.turn seat.new.seat }
{
    match node.try_get(alloc, seat, "/key") {
        Ok(_) => Some(0),
        Err(TryError::Busy { word }) => Some(word),
        Err(TryError::Core(_)) => None,
    }
}

// Holds turn after turn, until a word is found.
fn hold<K: Keeper, W: Wait>(
    alloc: Global,
    node: &Shared<K>,
    mut seat: Place<K>,
    found: &AtomicU64,
    wait: &W,
) -> Place<K>
    requires own { IsSeatOf node.now.turn seat.seat }
    ensures own { IsSeatOf node.now.turn result.seat }
{
    for _ in 0..TURNS {
        if found.load(SeqCst) > 0 {
            return seat;
        }
        let _seen = node.get(alloc, &mut seat, "/key", wait);
    }
    seat
}

// Reads without waiting, until the turn is held by another one, and tells the word.
fn find<K: Keeper>(
    alloc: Global,
    node: &Shared<K>,
    mut seat: Place<K>,
    found: &AtomicU64,
) -> Place<K>
    requires own { IsSeatOf node.now.turn seat.seat }
    ensures own { IsSeatOf node.now.turn result.seat }
{
    for _ in 0..TURNS {
        let word = word_of(alloc, node, &mut seat).unwrap_or(0);
        if word > 0 {
            found.store(word, SeqCst);
            return seat;
        }
    }
    seat
}

// The word that one thread finds while another one holds turns is told. Gives what the same read finds after that.
fn word_after<K: Keeper + Drop + Send + Sync, R: Threads + Wait + Sync>(
    alloc: Global,
    replica: Replica<K>,
    found: &AtomicU64,
    rt: &R,
) -> Option<u64>
where
    K::Desk: Send,
    requires runs { replica.stopped ≡ false }
{
    let Ok((node, mut first)) = Shared::<K>::new(alloc, replica, false, None) else {
        return None;
    };
    let second = node.split(&mut first);
    let shared = &node;
    let (mut first, second) = join(
        rt,
        || -> Place<K>
            requires { IsSeatOf shared.now.turn first.seat }
            ensures { IsSeatOf shared.entry.now.turn result.seat }
        { hold(alloc, shared, first, found, rt) },
        || -> Place<K>
            requires { IsSeatOf shared.now.turn second.seat }
            ensures { IsSeatOf shared.entry.now.turn result.seat }
        { find(alloc, shared, second, found) },
    );
    node.join(&mut first, second);
    word_of(alloc, &node, &mut first)
}

#[test]
fn a_held_turn_is_busy(rt: HostRuntime) -> Result<(), Fail> {
    let alloc = rt.alloc();
    let found = AtomicU64::new(0);
    let replica = opened(alloc, nothing(alloc))?;
    assert!(rt; word_after(alloc, replica, &found, &rt) == Some(0));
    assert!(rt; found.load(SeqCst) == 1);
    Ok(())
}

// A broadcast of two heads.
static BROADCAST: [u8; 80] = [
    0x0a, 0x26, 0x0a, 0x24, 0x01, 0x70, 0x12, 0x20, 1, 1, 1, 1, 1, 1, 1, 1, 1, 1, 1, 1, 1, 1, 1, 1,
    1, 1, 1, 1, 1, 1, 1, 1, 1, 1, 1, 1, 1, 1, 1, 1, 0x0a, 0x26, 0x0a, 0x24, 0x01, 0x70, 0x12, 0x20,
    2, 2, 2, 2, 2, 2, 2, 2, 2, 2, 2, 2, 2, 2, 2, 2, 2, 2, 2, 2, 2, 2, 2, 2, 2, 2, 2, 2, 2, 2, 2, 2,
];

// What two workers met: the blocks of their first jobs, that of the job that was given back and taken again, and how
// their last calls ended.
#[derive(Clone, Copy, Debug, PartialEq, Eq)]
struct Met {
    first: Cid,
    second: Cid,
    again: Cid,
    idle: Option<HandEnd>,
    spent: Option<HandEnd>,
}

// A replica that wants two blocks.
fn wanting<K: Keeper + Drop>(alloc: Global, keeper: K) -> Option<Replica<K>>
    requires { IfSome (K.told keeper) HasSoundMark }
    ensures runs { IfSome result (λ replica. replica.stopped ≡ false) }
{
    let Ok(mut replica) = opened(alloc, keeper) else {
        return None;
    };
    match replica.hear(alloc, &BROADCAST) {
        Ok(_) => Some(replica),
        Err(_) => None,
    }
}

// Two workers on a sealed node that wants two blocks, of which no bytes are found.
fn two_workers<K: Keeper + Drop, W: Wait>(alloc: Global, keeper: K, wait: &W) -> Option<Met>
    requires { IfSome (K.told keeper) HasSoundMark }
{
    let Some(replica) = wanting(alloc, keeper) else {
        return None;
    };
    let Ok((node, mut seat)) = Shared::<K>::new(alloc, replica, true, None) else {
        return None;
    };
    let mut one = Hired::new(alloc, node.split(&mut seat), 1, None);
    let mut other = Hired::new(alloc, seat, 1, None);
    let Ok(Some(job)) = node.next_job(alloc, &mut one, wait) else {
        return None;
    };
    let first = job.cid;
    let Ok(Some(left)) = node.next_job(alloc, &mut other, wait) else {
        return None;
    };
    let second = left.cid;
    node.give_back(&mut other, left, wait);
    let Ok(Handover::Delivered(Delivered::Missing)) = node.deliver(
        alloc,
        &mut one,
        job,
        Found::Missing,
        wait,
    ) else {
        return None;
    };
    let Ok(Some(job)) = node.next_job(alloc, &mut other, wait) else {
        return None;
    };
    let again = job.cid;
    let Ok(None) = node.next_job(alloc, &mut one, wait) else {
        return None;
    };
    let idle = Shared::<K>::last(&one);
    node.give_back(&mut other, job, wait);
    let mut none = Hired::new(alloc, one.into_seat(), 0, None);
    let Err(ShopError::Spent) = node.next_job(alloc, &mut none, wait) else {
        return None;
    };
    let spent = Shared::<K>::last(&none);
    Some(Met {
        first,
        second,
        again,
        idle,
        spent,
    })
}

#[test]
fn workers_take_jobs_of_a_sealed_node(rt: HostRuntime) -> Result<(), Fail> {
    assert_eq!(rt;
        two_workers(rt.alloc(), nothing(rt.alloc()), &rt),
        Some(Met {
            first: Cid([1; 32]),
            second: Cid([2; 32]),
            again: Cid([2; 32]),
            idle: Some(HandEnd::Idle),
            spent: Some(HandEnd::Spent),
        })
    );
    Ok(())
}
