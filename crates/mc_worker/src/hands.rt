// Workers, each in a thread of its own.
ghost use Rattle.std.specs.Prelude.{◌≡◌, ◌<◌, ℕ, All, length, slice_index_or};
ghost use Rattle.std.specs.List.{AllZip};
ghost use Rattle.std.specs.Thread.{IsSync};
ghost use Rattle.mc_worker.specs.Hands.{HasWorked, IsReady};

use crate::turns::work;
use crate::{Gate, HandEnd, Shop};
use mc_fetch::Fetch;
use std::alloc::Global;
use std::sync::Wait;
use std::thread;
use std::thread::Threads;

/// One worker: its seat in the shop, where it looks blocks up, and, once it has run, why it ended.
#[derive(Drop)]
pub struct Hand<S: Shop, F: Fetch> {
    /// Its seat in the shop.
    pub seat: S::Seat,
    /// Where it looks blocks up.
    pub fetch: F,
    /// Why it ended. Before it has run this may be any.
    pub end: HandEnd,
}

/// Runs one worker for each hand, in threads of their own, of which at most 16 run at a time. Each takes jobs from the
/// shop until there is none or it is at its end, passes the gate with each, looks the block up, and delivers what was
/// found. Where its fetch gives no answer it gives the job back and ends. The call returns when all have ended, and
/// then no seat has a job out.
pub fn run_workers<
    S: Shop + Sync,
    F: Fetch + Send,
    G: Gate + Sync,
    R: Threads + Sync,
    W: Wait + Sync,
>(alloc: Global, shop: &S, hands: &mut [Hand<S, F>], gate: &G, threads: &R, wait: &W)
where
    S::Seat: Send,
    requires ready { All (IsReady S.Shop F.Fetch shop.now) hands.old }
    ensures worked { AllZip (HasWorked S.Shop F.Fetch shop.now) hands.old hands.new }
{
    run_each(alloc, shop, hands, gate, threads, wait);
}

// The same, hand by hand.
fn run_each<S: Shop + Sync, F: Fetch + Send, G: Gate + Sync, R: Threads + Sync, W: Wait + Sync>(
    alloc: Global,
    shop: &S,
    hands: &mut [Hand<S, F>],
    gate: &G,
    threads: &R,
    wait: &W,
)
where
    S::Seat: Send,
    requires ready { All (IsReady S.Shop F.Fetch shop.now) hands.old }
    ensures length { length hands.new ≡ length hands.old }
    ensures worked { (k : ℕ) (d : Hand S F S.Seat) → k < length hands.old →
        HasWorked S.Shop F.Fetch shop.now (slice_index_or hands.old k d) (slice_index_or hands.new k d) }
{
    let work_one = |worker: usize, hand: &mut Hand<S, F>|
        requires { IsReady S.Shop F.Fetch shop.now hand.now }
        ensures { HasWorked S.Shop F.Fetch shop.entry.now hand.entry.now hand.exit.now }
    { work_hand(alloc, shop, hand, gate, worker as u64, wait) };
    thread::for_each_mut(threads, hands, 16, &work_one);
}

// The whole of one hand.
fn work_hand<S: Shop, F: Fetch, G: Gate, W: Wait>(
    alloc: Global,
    shop: &S,
    hand: &mut Hand<S, F>,
    gate: &G,
    worker: u64,
    wait: &W,
)
    requires ready { IsReady S.Shop F.Fetch shop.now hand.old }
    ensures worked { HasWorked S.Shop F.Fetch shop.now hand.old hand.new }
{
    hand.end = work(
        alloc,
        shop,
        &mut hand.seat,
        &mut hand.fetch,
        gate,
        worker,
        wait,
    );
}
