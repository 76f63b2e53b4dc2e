// A work with workers beside one another, from shelves that wait for one another.
ghost use Rattle.std.specs.Prelude.{IfSome};
ghost use Rattle.mc_model.specs.State.{HasSoundMark};

use mc_base::{Bytes, Cid, Counted};
use mc_core::{CoreError, Replica};
use mc_core_tests::{has_processed, hears, opened};
use mc_drain::Worked;
use mc_fetch::{Fetch, FetchError};
use mc_keep::Keeper;
use mc_keep_tests::{element, empty};
use mc_pull::crew::work;
use mc_worker::Open;
use std::alloc::{AllocError, Global};
use std::sync::Wait;
use std::sync::atomic::AtomicU64;
use std::sync::atomic::Ordering::SeqCst;
use std::test::Fail;
use std::thread::Threads;

const TURNS: u64 = 300_000_000;

// Each place offers its bytes for every block. The first answer waits until another shelf was asked, too.
#[derive(Drop)]
struct Meeting<'a> {
    blocks: Vec<Bytes>,
    asked: &'a AtomicU64,
    alone: &'a AtomicU64,
    met: bool,
}

// Waits until a second one was asked, for at most so many turns.
fn meet(asked: &AtomicU64, alone: &AtomicU64) {
    let _before = asked.fetch_add(1, SeqCst);
    for _ in 0..TURNS {
        if asked.load(SeqCst) > 1 {
            return;
        }
    }
    alone.store(1, SeqCst);
}

impl<'a> Counted for Meeting<'a> {
    ghost faults = { λ shelf. 0 };

    fn faults(&self) -> u64 {
        0
    }
}

impl<'a> Fetch for Meeting<'a> {
    ghost use Rattle.std.specs.Prelude.{⊤, true, length};
    ghost use Rattle.std.specs.Prelude as prelude;
    ghost use Rattle.mc_node_tests.specs.Leading.{few_none};

    ghost offers = { λ shelf. prelude.None };

    ghost leading = { λ shelf cid. prelude.[] };

    ghost places = { λ shelf. length shelf.blocks.items };

    ghost quiet = { λ shelf. true };

    ghost follows = { λ old new. ⊤ };

    ghost placed = { λ shelf. tt };

    ghost whole = { λ shelf. tt };

    ghost few = { λ shelf cid. few_none (length shelf.blocks.items) };

    ghost follows_itself = { λ shelf. tt };

    ghost follows_on = { λ first second third before after. tt };

    fn places(&self) -> u64 {
        self.blocks.as_slice().len() as u64
    }

    fn offer<W: Wait>(
        &mut self,
        alloc: Global,
        _cid: &Cid,
        place: u64,
        _wait: &W,
    ) -> Result<Option<Bytes>, FetchError> {
        if !self.met {
            self.met = true;
            meet(self.asked, self.alone);
        }
        Ok(Some(self.blocks[place as usize].try_clone(alloc)?))
    }
}

// A shelf with two blocks that link to none.
fn shelf<'a>(
    alloc: Global,
    asked: &'a AtomicU64,
    alone: &'a AtomicU64,
) -> Result<Meeting<'a>, AllocError> {
    let mut blocks = Vec::new(alloc);
    blocks.push(element(alloc, 1)?)?;
    blocks.push(element(alloc, 2)?)?;
    Ok(Meeting {
        blocks,
        asked,
        alone,
        met: false,
    })
}

// A replica hears of the two blocks.
fn hears_both<K: Keeper>(replica: &mut Replica<K>, alloc: Global) -> Result<(), CoreError> {
    for number in 1..=2 {
        let _queued = hears(replica, alloc, Cid::of(element(alloc, number)?.as_slice()))?;
    }
    Ok(())
}

// Two workers take two blocks, and each asks its shelf before the other has its answer. Whoever owns the replica has
// one way out with it, since each proves the dropping of all that it holds.
fn works_beside<K: Keeper + Drop + Send + Sync, R: Threads + Wait + Sync>(
    keeper: K,
    alloc: Global,
    asked: &AtomicU64,
    alone: &AtomicU64,
    rt: &R,
) -> Result<bool, CoreError>
where
    K::Desk: Send,
    requires { IfSome (K.told keeper) HasSoundMark }
{
    let mut shelves = Vec::with_capacity(alloc, 2)?;
    shelves.push_reserved(shelf(alloc, asked, alone)?);
    shelves.push_reserved(shelf(alloc, asked, alone)?);
    let mut replica = opened(alloc, keeper)?;
    let heard = hears_both(&mut replica, alloc);
    let (left, _shelves, answer) = work(alloc, replica, shelves, 8, &Open, rt, rt);
    let done = Worked::Done {
        processed: 2,
        missing: 0,
        bad: 0,
    };
    Ok(heard.is_ok() && answer == Ok(done) && has_processed(&left, 2))
}

#[test]
fn two_workers_fetch_beside_one_another(rt: HostRuntime) -> Result<(), Fail> {
    let alloc = rt.alloc();
    let asked = AtomicU64::new(0);
    let alone = AtomicU64::new(0);
    assert!(rt; works_beside(empty(alloc)?, alloc, &asked, &alone, &rt)?);
    assert!(rt; alone.load(SeqCst) == 0);
    Ok(())
}
