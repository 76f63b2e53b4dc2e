// A feed of a node, which one seat brings up while another one writes.
ghost use Rattle.std.specs.Prelude.{◌≡◌, [], false, true, IfOk, IfSome};
ghost use Rattle.mc_keep_mem.specs.Fits.{kept_in};
ghost use Rattle.mc_model.specs.Kept.{nothing_kept};
ghost use Rattle.mc_model.specs.State.{HasSoundMark};
ghost use Rattle.mc_node.specs.Entries.{is_open};
ghost use Rattle.mc_node.specs.Feeds.{WasFeedOf};
ghost use Rattle.mc_node.specs.Seats.{knows};
ghost use Rattle.mc_turn.specs.Seats.{IsSeatOf};

use mc_base::List;
use mc_core::Replica;
use mc_feed::{Event, Feed, Hook};
use mc_fetch::Naming;
use mc_keep::Keeper;
use mc_keep_mem::{FaultPlan, MemKeeper};
use mc_node::{Node, NodeFeedError, NodeSeat, Stored};
use std::alloc::{AllocError, Global};
use std::marker::Brand;
use std::sync::Wait;
use std::test::Fail;

/// A hook that keeps so many events, and refuses more.
#[derive(Drop)]
struct Events {
    events: List<Event>,
    most: usize,
}

impl Hook for Events {
    ghost taken = { λ hook. hook.events };

    fn told(&mut self, event: Event) -> Result<(), AllocError> {
        if self.events.len() >= self.most {
            return Err(AllocError);
        }
        match self.events.push(event) {
            Ok(()) => Ok(()),
            Err(_refused) => Err(AllocError),
        }
    }
}

// Two keys are put, and then one is deleted and the other is put with the value that it has: a feed is brought up after
// each, and once more.
fn follows<K: Keeper, J: Naming, H: Hook, W: Wait>(
    node: &Node<Stored<K, J>>,
    alloc: Global,
    first: &mut NodeSeat<Stored<K, J>, K>,
    second: &mut NodeSeat<Stored<K, J>, K>,
    feed: &mut Feed<H>,
    wait: &W,
) -> Result<bool, Fail>
    requires own { IsSeatOf node.now.turn first.old.seat × IsSeatOf node.now.turn second.old.seat }
    requires open { (is_open (knows first.old).seen ≡ true) × (is_open (knows second.old).seen ≡ true) }
    requires fed { WasFeedOf H.taken K.Keeper (knows first.old).seen feed.old }
    ensures own { IsSeatOf node.now.turn first.new.seat × IsSeatOf node.now.turn second.new.seat }
{
    node.put(alloc, second, "/a", b"red", wait)?;
    node.put(alloc, second, "/b", b"blue", wait)?;
    let two = node.feed(alloc, first, feed, wait)?;
    node.delete(alloc, second, "/a", wait)?;
    node.put(alloc, second, "/b", b"blue", wait)?;
    let four = node.feed(alloc, first, feed, wait)?;
    let still = node.feed(alloc, first, feed, wait)?;
    Ok(two == 2 && four == 4 && still == 4 && feed.length() == 4)
}

// Whether a feed is refused for this, and then for that.
fn refuses<K: Keeper, J: Naming, H: Hook, W: Wait>(
    node: &Node<Stored<K, J>>,
    alloc: Global,
    first: &mut NodeSeat<Stored<K, J>, K>,
    feed: &mut Feed<H>,
    errors: (NodeFeedError, NodeFeedError),
    wait: &W,
) -> bool
    requires own { IsSeatOf node.now.turn first.old.seat }
    requires open { is_open (knows first.old).seen ≡ true }
    requires fed { WasFeedOf H.taken K.Keeper (knows first.old).seen feed.old }
    ensures own { IsSeatOf node.now.turn first.new.seat }
{
    let once = node.feed(alloc, first, feed, wait);
    let again = node.feed(alloc, first, feed, wait);
    once == Err(errors.0) && again == Err(errors.1)
}

// The same after two puts, of a feed whose hook takes one event: the second block is refused, and then all are.
fn is_spent<K: Keeper, J: Naming, H: Hook, W: Wait>(
    node: &Node<Stored<K, J>>,
    alloc: Global,
    first: &mut NodeSeat<Stored<K, J>, K>,
    second: &mut NodeSeat<Stored<K, J>, K>,
    feed: &mut Feed<H>,
    wait: &W,
) -> Result<bool, Fail>
    requires own { IsSeatOf node.now.turn first.old.seat × IsSeatOf node.now.turn second.old.seat }
    requires open { (is_open (knows first.old).seen ≡ true) × (is_open (knows second.old).seen ≡ true) }
    requires fed { WasFeedOf H.taken K.Keeper (knows first.old).seen feed.old }
    ensures own { IsSeatOf node.now.turn first.new.seat × IsSeatOf node.now.turn second.new.seat }
{
    node.put(alloc, second, "/a", b"red", wait)?;
    node.put(alloc, second, "/b", b"blue", wait)?;
    let errors = (NodeFeedError::Memory, NodeFeedError::Spent);
    Ok(refuses(node, alloc, first, feed, errors, wait) && feed.length() == 1)
}

// What is tried.
#[derive(Clone, Copy)]
enum Feeds {
    Follow,
    Spend,
    Stop,
}

// Tries it over two seats of a node.
fn tries<K: Keeper, J: Naming, H: Hook, W: Wait>(
    feeds: Feeds,
    node: &Node<Stored<K, J>>,
    alloc: Global,
    first: &mut NodeSeat<Stored<K, J>, K>,
    second: &mut NodeSeat<Stored<K, J>, K>,
    feed: &mut Feed<H>,
    wait: &W,
) -> Result<bool, Fail>
    requires own { IsSeatOf node.now.turn first.old.seat × IsSeatOf node.now.turn second.old.seat }
    requires open { (is_open (knows first.old).seen ≡ true) × (is_open (knows second.old).seen ≡ true) }
    requires fed { WasFeedOf H.taken K.Keeper (knows first.old).seen feed.old }
    ensures own { IsSeatOf node.now.turn first.new.seat × IsSeatOf node.now.turn second.new.seat }
{
    match feeds {
        Feeds::Follow => follows(node, alloc, first, second, feed, wait),
        Feeds::Spend => is_spent(node, alloc, first, second, feed, wait),
        Feeds::Stop => {
            let errors = (NodeFeedError::KeeperFault, NodeFeedError::Stopped);
            Ok(refuses(node, alloc, first, feed, errors, wait))
        }
    }
}

// A replica that runs over a keeper.
fn opened<K: Keeper + Drop>(alloc: Global, keeper: K) -> Result<Replica<K>, Fail>
    requires { IfSome (K.told keeper) HasSoundMark }
    ensures { IfOk result (λ replica. replica.stopped ≡ false) }
{
    match Replica::open(alloc, keeper) {
        Ok(replica) => Ok(replica),
        Err(_refused) => Err(Fail::new("no replica")),
    }
}

// Tries it over a node over a keeper, and gives the hook back, or none where it didn't go as it should.
fn taken_over<K: Keeper + Drop, H: Hook + Drop, W: Wait>(
    feeds: Feeds,
    alloc: Global,
    keeper: K,
    hook: H,
    wait: &W,
) -> Result<Option<H>, Fail>
    requires keeper { IfSome (K.told keeper) HasSoundMark }
    requires nothing { H.taken hook ≡ [] }
{
    let replica = opened(alloc, keeper)?;
    let Ok((node, mut first)) = Node::<Stored<K, Brand>>::new(alloc, replica, false, None) else {
        return Err(Fail::new("no node"));
    };
    let mut second = node.split(&mut first);
    let mut feed = Feed::new(alloc, hook);
    let tried = tries(
        feeds,
        &node,
        alloc,
        &mut first,
        &mut second,
        &mut feed,
        wait,
    );
    node.join(&mut first, second);
    drop(node.close(first, wait));
    let hook = feed.end();
    match tried? {
        true => Ok(Some(hook)),
        false => Ok(None),
    }
}

// What a hook that takes so many events was told over a keeper in memory that fails as planned.
fn told<W: Wait>(
    feeds: Feeds,
    alloc: Global,
    plan: FaultPlan,
    most: usize,
    wait: &W,
) -> Result<Option<Events>, Fail> {
    let hook = Events {
        events: List::new(alloc),
        most,
    };
    taken_over(feeds, alloc, made(alloc, plan)?, hook, wait)
}

// A keeper without blocks.
fn made(alloc: Global, plan: FaultPlan) -> Result<MemKeeper, AllocError>
    ensures { IfOk result (λ keeper. kept_in keeper.store.tables ≡ nothing_kept) }
{
    MemKeeper::new(alloc, plan)
}

// Whether just these events were told.
fn are_told(told: &Option<Events>, wanted: &[(u64, &str, Option<&[u8]>)]) -> bool {
    let Some(hook) = told else {
        return false;
    };
    let events = hook.events.as_slice();
    if events.len() != wanted.len() {
        return false;
    }
    for (event, one) in events.iter().zip(wanted) {
        if !is_event(event, one) {
            return false;
        }
    }
    true
}

fn is_event(event: &Event, wanted: &(u64, &str, Option<&[u8]>)) -> bool {
    let (position, key, value) = wanted;
    let same = match (&event.value, value) {
        (Some(bytes), Some(value)) => bytes.as_slice() == *value,
        (None, None) => true,
        _ => false,
    };
    event.position == *position && event.key.as_str() == *key && same
}

// A plan by which the third read fails: the first two are the opening's.
fn failing(alloc: Global) -> Result<FaultPlan, AllocError> {
    let mut plan = FaultPlan::nothing(alloc);
    plan.reads.push(3)?;
    Ok(plan)
}

#[test]
fn a_seat_brings_a_feed_up_to_what_another_writes(rt: HostRuntime) -> Result<(), Fail> {
    let alloc = rt.alloc();
    let nothing = FaultPlan::nothing(alloc);
    let told = told(Feeds::Follow, alloc, nothing, 100, &rt)?;
    let red = Some(b"red".as_slice());
    let blue = Some(b"blue".as_slice());
    // the put of an equal value changes none
    assert!(rt; are_told(&told, &[(0, "/a", red), (1, "/b", blue), (2, "/a", None)]));
    Ok(())
}

#[test]
fn a_feed_that_wanted_memory_is_spent(rt: HostRuntime) -> Result<(), Fail> {
    let alloc = rt.alloc();
    let nothing = FaultPlan::nothing(alloc);
    let told = told(Feeds::Spend, alloc, nothing, 1, &rt)?;
    assert!(rt; are_told(&told, &[(0, "/a", Some(b"red".as_slice()))]));
    Ok(())
}

#[test]
fn a_fault_stops_a_node_in_a_feed(rt: HostRuntime) -> Result<(), Fail> {
    let alloc = rt.alloc();
    let told = told(Feeds::Stop, alloc, failing(alloc)?, 100, &rt)?;
    assert!(rt; are_told(&told, &[]));
    Ok(())
}
