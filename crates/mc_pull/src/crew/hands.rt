// The workers of a round: their seats are split from one, and come back to it.
ghost use Rattle.std.specs.Prelude.{◌≡◌, ◌≤◌, ◌<◌, ◌+◌, ◌^◌, ◌||◌, ◌++◌, ◌∷◌, [], All, length, map, None, true, false};
ghost use Rattle.std.specs.Prelude.{vec_len, vec_capacity};
ghost use Rattle.std.specs.List.{AllZip, list_any};
ghost use Rattle.mc_fetch.specs.Calls.{Asks};
ghost use Rattle.mc_fetch.specs.Fits.{FetchFits};
ghost use Rattle.mc_fetch.specs.Offers.{found_by};
ghost use Rattle.mc_turn.specs.Seats.{IsSeatOf};
ghost use Rattle.mc_worker.specs.Ends.{is_peer};
ghost use Rattle.mc_node.specs.Entries.{StaysSealed, is_sealed_log};
ghost use Rattle.mc_node.specs.Seats.{knows};
ghost use Rattle.mc_node.specs.Works.{IsUnder};
ghost use Rattle.mc_pull.specs.Hands.{FetchLeft, HasRun, IsHired, SomeRose};

use crate::crew::laws::fetches_follow;
use mc_fetch::{Fetch, Naming};
use mc_keep::Keeper;
use mc_node::{Hired, Node, NodeSeat, Stored};
use mc_relay::GiverEnd;
use mc_worker::{Gate, Hand, HandEnd, run_workers};
use std::alloc::Global;
use std::sync::Wait;
use std::thread::Threads;

// A hand that has not worked yet.
fn hand_of<K: Keeper, J: Naming, F: Fetch>(
    alloc: Global,
    node: &Node<Stored<K, J>>,
    seat: NodeSeat<Stored<K, J>, K>,
    fetch: F,
    giver: Option<GiverEnd<J>>,
    limit: u64,
) -> Hand<Node<Stored<K, J>>, F>
    requires own { IsSeatOf node.now.turn seat.seat }
    requires sealed { is_sealed_log (knows seat).seen ≡ true }
    requires limit { IsUnder J.most limit }
    requires fits { FetchFits J.found J.kept (found_by (F.offers fetch)) }
    ensures ready { IsHired (IsSeatOf node.now.turn result.seat.seat.seat) (IsUnder J.most result.seat.limit)
        (is_sealed_log (knows result.seat.seat).seen ≡ true) result.seat.out
        (FetchFits J.found J.kept (found_by (F.offers result.fetch))) }
    ensures fetch { result.fetch ≡ fetch }
{
    let _of = node;
    Hand {
        seat: Hired::new(alloc, seat, limit, giver),
        fetch,
        end: HandEnd::Memory,
    }
}

// A hand for each fetch, with a seat that is split from this one, and a giver, as long as there are some.
fn hire<K: Keeper, J: Naming, F: Fetch>(
    alloc: Global,
    node: &Node<Stored<K, J>>,
    seat: &mut NodeSeat<Stored<K, J>, K>,
    fetches: Vec<F>,
    givers: Vec<GiverEnd<J>>,
    hands: &mut Vec<Hand<Node<Stored<K, J>>, F>>,
    limit: u64,
)
    requires own { IsSeatOf node.now.turn seat.old.seat }
    requires sealed { is_sealed_log (knows seat.old).seen ≡ true }
    requires parts { 2 ^ length fetches.items ≤ (knows seat.old).parts }
    requires limit { IsUnder J.most limit }
    requires fits { All (λ f. FetchFits J.found J.kept (found_by (F.offers f))) fetches.items }
    requires empty { hands.old.items ≡ [] }
    requires room { length fetches.items ≤ vec_capacity hands.old }
    ensures own { IsSeatOf node.now.turn seat.new.seat }
    ensures seen { (knows seat.new).seen ≡ (knows seat.old).seen }
    ensures ready { All (λ hand. IsHired (IsSeatOf node.now.turn hand.seat.seat.seat) (IsUnder J.most hand.seat.limit)
        (is_sealed_log (knows hand.seat.seat).seen ≡ true) hand.seat.out
        (FetchFits J.found J.kept (found_by (F.offers hand.fetch)))) hands.new.items }
    ensures fetches { map (λ hand. hand.fetch) hands.new.items ≡ fetches.items }
{
    let mut givers = givers;
    let mut rest = fetches.into_iter();
    while let Some(fetch) = rest.next() {
        let other = node.split(seat);
        let giver = givers.pop();
        hands.push_reserved(hand_of(alloc, node, other, fetch, giver, limit));
    }
    rest.destroy_empty();
}

// Runs one worker for each hand, in threads of their own.
fn run<
    K: Keeper + Send + Sync,
    J: Naming + Send + Sync,
    F: Fetch + Send,
    G: Gate + Sync,
    T: Threads + Sync,
    W: Wait + Sync,
>(
    alloc: Global,
    node: &Node<Stored<K, J>>,
    hands: &mut Vec<Hand<Node<Stored<K, J>>, F>>,
    gate: &G,
    threads: &T,
    wait: &W,
)
where
    K::Desk: Send,
    requires ready { All (λ hand. IsHired (IsSeatOf node.now.turn hand.seat.seat.seat) (IsUnder J.most hand.seat.limit)
        (is_sealed_log (knows hand.seat.seat).seen ≡ true) hand.seat.out
        (FetchFits J.found J.kept (found_by (F.offers hand.fetch)))) hands.old.items }
    ensures length { length hands.new.items ≡ length hands.old.items }
    ensures ran { AllZip (λ old new. HasRun (IsSeatOf node.now.turn new.seat.seat.seat) new.seat.out
        (Asks F.Fetch (is_peer new.end) old.fetch new.fetch)) hands.old.items hands.new.items }
{
    run_slice(alloc, node, hands.as_mut_slice(), gate, threads, wait);
}

// The same, over a slice.
fn run_slice<
    K: Keeper + Send + Sync,
    J: Naming + Send + Sync,
    F: Fetch + Send,
    G: Gate + Sync,
    T: Threads + Sync,
    W: Wait + Sync,
>(
    alloc: Global,
    node: &Node<Stored<K, J>>,
    hands: &mut [Hand<Node<Stored<K, J>>, F>],
    gate: &G,
    threads: &T,
    wait: &W,
)
where
    K::Desk: Send,
    requires ready { All (λ hand. IsHired (IsSeatOf node.now.turn hand.seat.seat.seat) (IsUnder J.most hand.seat.limit)
        (is_sealed_log (knows hand.seat.seat).seen ≡ true) hand.seat.out
        (FetchFits J.found J.kept (found_by (F.offers hand.fetch)))) hands.old }
    ensures length { length hands.new ≡ length hands.old }
    ensures ran { AllZip (λ old new. HasRun (IsSeatOf node.now.turn new.seat.seat.seat) new.seat.out
        (Asks F.Fetch (is_peer new.end) old.fetch new.fetch)) hands.old hands.new }
{
    run_workers(alloc, node, hands, gate, threads, wait);
}

// Whether a worker ended by a fault of its fetch.
fn is_peer(end: HandEnd) -> bool
    ensures { result ≡ is_peer end }
{
    match end {
        HandEnd::PeerFault => true,
        HandEnd::Idle
        | HandEnd::Spent
        | HandEnd::KeeperFault
        | HandEnd::Stopped
        | HandEnd::Memory => false,
    }
}

// One end more, beside others of which a fetch failed or none did.
fn noted(failed: bool, end: HandEnd) -> bool
    ensures { result ≡ (failed || is_peer end) }
{
    failed || is_peer(end)
}

// What comes back of a hand that has no job out.
fn freed<K: Keeper, J: Naming, F: Fetch>(
    hand: Hand<Node<Stored<K, J>>, F>,
) -> (NodeSeat<Stored<K, J>, K>, F, HandEnd)
    requires idle { hand.seat.out ≡ None }
    ensures seat { result.0 ≡ hand.seat.seat }
    ensures fetch { result.1 ≡ hand.fetch }
    ensures end { result.2 ≡ hand.end }
{
    let Hand { seat, fetch, end } = hand;
    (seat.into_seat(), fetch, end)
}

// The seats come back to this one, and the fetches to their list. Whether a fetch failed.
fn release<K: Keeper, J: Naming, F: Fetch>(
    node: &Node<Stored<K, J>>,
    seat: &mut NodeSeat<Stored<K, J>, K>,
    hands: Vec<Hand<Node<Stored<K, J>>, F>>,
    fetches: &mut Vec<F>,
) -> bool
    requires own { IsSeatOf node.now.turn seat.old.seat }
    requires owned { All (λ hand. IsSeatOf node.now.turn hand.seat.seat.seat × (hand.seat.out ≡ None)) hands.items }
    requires empty { fetches.old.items ≡ [] }
    requires room { length hands.items ≤ vec_capacity fetches.old }
    ensures own { IsSeatOf node.now.turn seat.new.seat }
    ensures sealed { StaysSealed (knows seat.old).seen (knows seat.new).seen }
    ensures fetches { fetches.new.items ≡ map (λ hand. hand.fetch) hands.items }
    ensures failed { result ≡ list_any is_peer (map (λ hand. hand.end) hands.items) }
{
    let mut failed = false;
    let mut rest = hands.into_iter();
    while let Some(hand) = rest.next() {
        let (other, fetch, end) = freed(hand);
        node.join(seat, other);
        fetches.push_reserved(fetch);
        failed = noted(failed, end);
    }
    rest.destroy_empty();
    failed
}

// Workers over a sealed node, one for each fetch, with seats that are split from this one and come back to it, and with
// these givers of the node's relay. The fetches come back in their order, and whether one of them failed. Where there
// is no memory nobody works.
pub(crate) fn work_beside<
    K: Keeper + Send + Sync,
    J: Naming + Send + Sync,
    F: Fetch + Send,
    G: Gate + Sync,
    T: Threads + Sync,
    W: Wait + Sync,
>(
    alloc: Global,
    node: &Node<Stored<K, J>>,
    seat: &mut NodeSeat<Stored<K, J>, K>,
    fetches: Vec<F>,
    givers: Vec<GiverEnd<J>>,
    limit: u64,
    gate: &G,
    threads: &T,
    wait: &W,
) -> (Vec<F>, bool)
where
    K::Desk: Send,
    requires own { IsSeatOf node.now.turn seat.old.seat }
    requires sealed { is_sealed_log (knows seat.old).seen ≡ true }
    requires parts { 2 ^ length fetches.items ≤ (knows seat.old).parts }
    requires limit { IsUnder J.most limit }
    requires fits { All (λ f. FetchFits J.found J.kept (found_by (F.offers f))) fetches.items }
    ensures own { IsSeatOf node.now.turn seat.new.seat }
    ensures sealed { StaysSealed (knows seat.old).seen (knows seat.new).seen }
    ensures left { AllZip (FetchLeft F.Fetch) fetches.items result.0.items }
    ensures calm { result.1 ≡ false → AllZip (Asks F.Fetch false) fetches.items result.0.items }
    ensures peer { result.1 ≡ true → SomeRose F.faults fetches.items result.0.items }
{
    fetches_follow::<F>();
    let count = fetches.len();
    let Ok(mut hands) = Vec::with_capacity(alloc, count) else {
        return (fetches, false);
    };
    let Ok(mut left) = Vec::with_capacity(alloc, count) else {
        hands.destroy_empty();
        return (fetches, false);
    };
    hire(alloc, node, seat, fetches, givers, &mut hands, limit);
    run(alloc, node, &mut hands, gate, threads, wait);
    let failed = release(node, seat, hands, &mut left);
    (left, failed)
}
