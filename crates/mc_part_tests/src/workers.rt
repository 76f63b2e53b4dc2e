// Workers over a shop of numbered blocks, which nobody offers.
ghost use Rattle.std.specs.Prelude.{◌≡◌, All, IfOk, None};

use mc_base::{Bytes, Cid, Counted};
use mc_fetch::{Delivered, Fetch, FetchError, Found, Job};
use mc_worker::{Gate, Hand, HandEnd, Handover, Shop, ShopError, run_workers};
use std::alloc::{AllocError, Global};
use std::sync::Wait;
use std::sync::atomic::AtomicU64;
use std::sync::atomic::Ordering::SeqCst;
use std::test::Fail;

// The first `count` blocks are jobs. What was delivered and what was given back is counted.
#[derive(Drop)]
struct Numbered {
    count: u64,
    taken: AtomicU64,
    missing: AtomicU64,
    back: AtomicU64,
}

#[derive(Drop)]
struct Place {
    last: Option<HandEnd>,
    out: Option<Cid>,
}

impl Shop for Numbered {
    ghost use Rattle.std.specs.Prelude.{⊤, []};
    ghost use Rattle.std.specs.Prelude as prelude;

    type Seat = Place;

    ghost owns = { λ shop seat. ⊤ };

    ghost ended = { λ seat. seat.last };

    ghost out = { λ seat. seat.out };

    ghost found = { prelude.None };

    ghost kept = { [] };

    ghost nexts = { λ result before after. ⊤ };

    ghost delivers = { λ cid found result before after. ⊤ };

    ghost returns = { λ cid before after. ⊤ };

    fn last(seat: &Place) -> Option<HandEnd> {
        seat.last
    }

    fn next_job<W: Wait>(
        &self,
        _alloc: Global,
        seat: &mut Place,
        _wait: &W,
    ) -> Result<Option<Job>, ShopError> {
        let number = self.taken.fetch_add(1, SeqCst);
        if number >= self.count {
            seat.last = Some(HandEnd::Idle);
            return Ok(None);
        }
        let cid = Cid([(number % 256) as u8; 32]);
        seat.last = None;
        seat.out = Some(cid);
        Ok(Some(Job { cid, own: None }))
    }

    fn deliver<W: Wait>(
        &self,
        _alloc: Global,
        seat: &mut Place,
        _job: Job,
        _bytes: Found,
        _wait: &W,
    ) -> Result<Handover, ShopError> {
        let _before = self.missing.fetch_add(1, SeqCst);
        seat.last = None;
        seat.out = None;
        Ok(Handover::Delivered(Delivered::Missing))
    }

    fn give_back<W: Wait>(&self, seat: &mut Place, _job: Job, _wait: &W) {
        let _before = self.back.fetch_add(1, SeqCst);
        seat.out = None;
    }
}

// A place that offers nothing. The call with the number `failing`, counted from 1, fails.
#[derive(Drop)]
struct Empty {
    failing: u64,
    asked: u64,
    faults: u64,
}

impl Counted for Empty {
    ghost faults = { λ fetch. fetch.faults };

    fn faults(&self) -> u64 {
        self.faults
    }
}

impl Fetch for Empty {
    ghost use Rattle.std.specs.Prelude.{⊤, false};
    ghost use Rattle.std.specs.Prelude as prelude;
    ghost use Rattle.mc_part_tests.specs.Leading.{few_none};

    ghost offers = { λ fetch. prelude.None };

    ghost leading = { λ fetch cid. prelude.[] };

    ghost places = { λ fetch. 1 };

    ghost quiet = { λ fetch. false };

    ghost follows = { λ old new. ⊤ };

    ghost placed = { λ fetch. tt };

    ghost whole = { λ fetch. tt };

    ghost few = { λ fetch cid. few_none 1 };

    ghost follows_itself = { λ fetch. tt };

    ghost follows_on = { λ first second third before after. tt };

    fn places(&self) -> u64 {
        1
    }

    fn offer<W: Wait>(
        &mut self,
        _alloc: Global,
        _cid: &Cid,
        _place: u64,
        _wait: &W,
    ) -> Result<Option<Bytes>, FetchError> {
        self.asked = self.asked.saturating_add(1);
        if self.asked == self.failing {
            self.faults = self.faults.saturating_add(1);
            return Err(FetchError::Failed);
        }
        Ok(None)
    }
}

// Counts who passes.
#[derive(Drop)]
struct Counting {
    passed: AtomicU64,
}

impl Gate for Counting {
    fn pass<W: Wait>(&self, _worker: u64, _turn: u64, _wait: &W) {
        let _before = self.passed.fetch_add(1, SeqCst);
    }
}

#[derive(Drop)]
struct Row {
    jobs: u64,
    workers: u64,
    // the call at which the fetch of each worker fails
    failing: u64,
    passed: u64,
    missing: u64,
    back: u64,
    end: HandEnd,
}

fn row_of(jobs: u64, workers: u64, failing: u64, passed: [u64; 3], end: HandEnd) -> Row {
    let [passed, missing, back] = passed;
    Row {
        jobs,
        workers,
        failing,
        passed,
        missing,
        back,
        end,
    }
}

// A hand that has not worked yet.
fn hand_of(failing: u64) -> Hand<Numbered, Empty>
    ensures { result.seat.out ≡ None }
{
    Hand {
        seat: Place {
            last: None,
            out: None,
        },
        fetch: Empty {
            failing,
            asked: 0,
            faults: 0,
        },
        end: HandEnd::Memory,
    }
}

fn hands_of(
    alloc: Global,
    workers: u64,
    failing: u64,
) -> Result<Vec<Hand<Numbered, Empty>>, AllocError>
    ensures { IfOk result (λ hands. All (λ hand. hand.seat.out ≡ None) hands.items) }
{
    let mut hands = Vec::new(alloc);
    for _ in 0..workers {
        hands.push(hand_of(failing))?;
    }
    Ok(hands)
}

#[test]
fn each_job_is_delivered_or_given_back(rt: HostRuntime) -> Result<(), Fail> {
    let rows = [
        row_of(0, 1, 0, [0, 0, 0], HandEnd::Idle),
        row_of(5, 1, 0, [5, 5, 0], HandEnd::Idle),
        row_of(5, 1, 3, [3, 2, 1], HandEnd::PeerFault),
        row_of(200, 4, 0, [200, 200, 0], HandEnd::Idle),
        row_of(200, 16, 0, [200, 200, 0], HandEnd::Idle),
        row_of(200, 16, 1, [16, 0, 16], HandEnd::PeerFault),
    ];
    for row in rows {
        let shop = Numbered {
            count: row.jobs,
            taken: AtomicU64::new(0),
            missing: AtomicU64::new(0),
            back: AtomicU64::new(0),
        };
        let gate = Counting {
            passed: AtomicU64::new(0),
        };
        let mut hands = hands_of(rt.alloc(), row.workers, row.failing)?;
        run_workers(rt.alloc(), &shop, hands.as_mut_slice(), &gate, &rt, &rt);
        for hand in hands.as_slice() {
            assert!(rt; hand.end == row.end);
        }
        assert!(rt; gate.passed.load(SeqCst) == row.passed);
        assert!(rt; shop.missing.load(SeqCst) == row.missing);
        assert!(rt; shop.back.load(SeqCst) == row.back);
    }
    Ok(())
}
