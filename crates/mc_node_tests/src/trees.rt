// Four workers take part in a tree of blocks with one root.
ghost use Rattle.std.specs.Prelude.{IfSome};
ghost use Rattle.mc_model.specs.State.{HasSoundMark};

use mc_base::{Bytes, Cid, Counted};
use mc_block::write_block;
use mc_core::CoreError;
use mc_core_tests::{has_processed, hears, opened};
use mc_drain::Worked;
use mc_fetch::{Fetch, FetchError};
use mc_keep::Keeper;
use mc_keep_tests::{empty, no_delta};
use mc_pull::crew::work;
use mc_worker::Gate;
use std::alloc::{AllocError, Global};
use std::sync::Wait;
use std::sync::atomic::AtomicU64;
use std::sync::atomic::Ordering::SeqCst;
use std::test::Fail;
use std::thread::Threads;

const TURNS: u64 = 300_000_000;

const BRANCHES: u64 = 9;

const LEAVES: u64 = 110;

const BLOCKS: u64 = 1_000;

const WORKERS: u64 = 4;

// A block beside its identifier.
#[derive(Drop)]
struct Made {
    cid: Cid,
    bytes: Bytes,
}

// Offers the blocks of a tree.
#[derive(Drop)]
struct Shelf<'a> {
    tree: &'a [Made],
}

impl<'a> Counted for Shelf<'a> {
    ghost faults = { λ shelf. 0 };

    fn faults(&self) -> u64 {
        0
    }
}

impl<'a> Fetch for Shelf<'a> {
    ghost use Rattle.std.specs.Prelude.{⊤, true};
    ghost use Rattle.std.specs.Prelude as prelude;
    ghost use Rattle.mc_node_tests.specs.Leading.{few_none};

    ghost offers = { λ shelf. prelude.None };

    ghost leading = { λ shelf cid. prelude.[] };

    ghost places = { λ shelf. 1 };

    ghost quiet = { λ shelf. true };

    ghost follows = { λ old new. ⊤ };

    ghost placed = { λ shelf. tt };

    ghost whole = { λ shelf. tt };

    ghost few = { λ shelf cid. few_none 1 };

    ghost follows_itself = { λ shelf. tt };

    ghost follows_on = { λ first second third before after. tt };

    fn places(&self) -> u64 {
        1
    }

    fn offer<W: Wait>(
        &mut self,
        alloc: Global,
        cid: &Cid,
        _place: u64,
        _wait: &W,
    ) -> Result<Option<Bytes>, FetchError> {
        for made in self.tree.iter().rev() {
            if made.cid == *cid {
                return Ok(Some(made.bytes.try_clone(alloc)?));
            }
        }
        Ok(None)
    }
}

// Lets each worker pass once, and again when all have come, for which it waits so many turns at most.
#[derive(Drop)]
struct Together {
    come: AtomicU64,
    alone: AtomicU64,
}

impl Gate for Together {
    fn pass<W: Wait>(&self, _worker: u64, turn: u64, _wait: &W) {
        if turn == 0 {
            let _before = self.come.fetch_add(1, SeqCst);
            return;
        }
        for _ in 0..TURNS {
            if self.come.load(SeqCst) >= WORKERS {
                return;
            }
        }
        self.alone.store(1, SeqCst);
    }
}

fn make(alloc: Global, links: &[Cid], priority: u64) -> Result<Made, AllocError> {
    let made = write_block(alloc, links, &no_delta(alloc, priority))?;
    Ok(Made {
        cid: made.cid,
        bytes: made.bytes,
    })
}

// A branch: its leaves, and behind them the block that links to them.
fn grow(alloc: Global, all: &mut Vec<Made>) -> Result<Cid, AllocError> {
    let mut links = Vec::new(alloc);
    for _ in 0..LEAVES {
        let leaf = make(alloc, &[], all.len() as u64)?;
        links.push(leaf.cid)?;
        all.push(leaf)?;
    }
    let top = make(alloc, links.as_slice(), 1)?;
    let cid = top.cid;
    all.push(top)?;
    Ok(cid)
}

// A tree: its branches, and at the end the root, which links to them.
fn tree(alloc: Global) -> Result<Vec<Made>, AllocError> {
    let mut all = Vec::new(alloc);
    let mut links = Vec::new(alloc);
    for _ in 0..BRANCHES {
        links.push(grow(alloc, &mut all)?)?;
    }
    all.push(make(alloc, links.as_slice(), 1)?)?;
    Ok(all)
}

// Four workers, each with a shelf of the same tree, on a replica that has heard of its root.
fn works_together<K: Keeper + Drop + Send + Sync, R: Threads + Wait + Sync>(
    keeper: K,
    alloc: Global,
    tree: &[Made],
    gate: &Together,
    rt: &R,
) -> Result<bool, CoreError>
where
    K::Desk: Send,
    requires { IfSome (K.told keeper) HasSoundMark }
{
    let mut shelves = Vec::with_capacity(alloc, 4)?;
    shelves.push_reserved(Shelf { tree });
    shelves.push_reserved(Shelf { tree });
    shelves.push_reserved(Shelf { tree });
    shelves.push_reserved(Shelf { tree });
    let mut replica = opened(alloc, keeper)?;
    let heard = match tree {
        [.., root] => hears(&mut replica, alloc, root.cid),
        [] => Ok(0),
    };
    let (left, _shelves, answer) = work(alloc, replica, shelves, 2_000, gate, rt, rt);
    let done = Worked::Done {
        processed: BLOCKS,
        missing: 0,
        bad: 0,
    };
    Ok(heard.is_ok() && answer == Ok(done) && has_processed(&left, BLOCKS))
}

#[test]
fn four_workers_take_part_in_a_tree_with_one_root(rt: HostRuntime) -> Result<(), Fail> {
    let alloc = rt.alloc();
    let tree = tree(alloc)?;
    let gate = Together {
        come: AtomicU64::new(0),
        alone: AtomicU64::new(0),
    };
    assert!(rt; works_together(empty(alloc)?, alloc, tree.as_slice(), &gate, &rt)?);
    assert!(rt; gate.come.load(SeqCst) == WORKERS);
    assert!(rt; gate.alone.load(SeqCst) == 0);
    Ok(())
}
