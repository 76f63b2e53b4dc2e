// Works and repairs of one replica, with blocks from a shelf.
ghost use Rattle.std.specs.Prelude.{IfSome};
ghost use Rattle.mc_model.specs.State.{HasSoundMark};

use mc_base::{Bytes, Cid, Counted};
use mc_core::{CoreError, Replica};
use mc_core_tests::{Chain, hears, last_alone, link, make_chain, opened};
use mc_drain::{Repaired, Worked, repair, work};
use mc_fetch::{Fetch, FetchError};
use mc_keep::Keeper;
use mc_keep_tests::{Trial, element, passes};
use std::alloc::{AllocError, Global};
use std::sync::Wait;
use std::test::Fail;

// Each place offers its bytes for every block.
#[derive(Drop)]
struct Shelf {
    blocks: Vec<Bytes>,
}

impl Counted for Shelf {
    ghost faults = { λ shelf. 0 };

    fn faults(&self) -> u64 {
        0
    }
}

impl Fetch for Shelf {
    ghost use Rattle.std.specs.Prelude.{⊤, true, length};
    ghost use Rattle.std.specs.Prelude as prelude;
    ghost use Rattle.mc_node_tests.specs.Leading.{few_none};

    ghost offers = { λ shelf. prelude.None };

    ghost leading = { λ shelf cid. prelude.[] };

    ghost places = { λ shelf. length shelf.blocks.items };

    ghost quiet = { λ shelf. true };

    ghost follows = { λ old new. ⊤ };

    ghost placed = { λ shelf. tt };

    ghost whole = { λ shelf. tt };

    ghost few = { λ shelf cid. few_none (length shelf.blocks.items) };

    ghost follows_itself = { λ shelf. tt };

    ghost follows_on = { λ first second third before after. tt };

    fn places(&self) -> u64 {
        self.blocks.as_slice().len() as u64
    }

    fn offer<W: Wait>(
        &mut self,
        alloc: Global,
        _cid: &Cid,
        place: u64,
        _wait: &W,
    ) -> Result<Option<Bytes>, FetchError> {
        Ok(Some(self.blocks[place as usize].try_clone(alloc)?))
    }
}

// A shelf with the first two blocks of the chain, or with all three.
fn shelf_of(alloc: Global, chain: Chain, whole: bool) -> Result<Shelf, AllocError> {
    let mut blocks = Vec::new(alloc);
    blocks.push(link(alloc, chain.second, 3)?)?;
    blocks.push(element(alloc, 1)?)?;
    if whole {
        blocks.push(link(alloc, chain.first, 2)?)?;
    }
    Ok(Shelf { blocks })
}

// A chain of three blocks comes, two of them for a budget, and a missing block is found once it is offered.
fn is_worked<K: Keeper, F: Fetch, W: Wait>(
    replica: &mut Replica<K>,
    alloc: Global,
    part: &mut F,
    whole: &mut F,
    wait: &W,
) -> bool {
    let missing = work(alloc, replica, part, 8, wait);
    let again = work(alloc, replica, whole, 1, wait);
    let done = work(alloc, replica, whole, 8, wait);
    let none = work(alloc, replica, whole, 8, wait);
    missing == Ok(done_with(1, 1))
        && again == Ok(Worked::Again { processed: 1 })
        && done == Ok(done_with(1, 0))
        && none == Ok(done_with(0, 0))
}

// The same from a keeper on. Whoever owns the replica has one way out with it, since each proves the dropping of all
// that it holds.
fn works<K: Keeper + Drop, W: Wait>(keeper: K, alloc: Global, wait: &W) -> Result<bool, CoreError>
    requires { IfSome (K.told keeper) HasSoundMark }
{
    let chain = make_chain(alloc)?;
    let mut part = shelf_of(alloc, chain, false)?;
    let mut whole = shelf_of(alloc, chain, true)?;
    let mut replica = opened(alloc, keeper)?;
    let heard = hears(&mut replica, alloc, chain.third);
    let is_worked = is_worked(&mut replica, alloc, &mut part, &mut whole, wait);
    Ok(heard? == 1 && is_worked)
}

fn done_with(processed: u64, missing: u64) -> Worked {
    Worked::Done {
        processed,
        missing,
        bad: 0,
    }
}

// A gap that a stop has left is open while nobody offers the block, and then the repair is clean.
fn is_repaired<K: Keeper, F: Fetch, W: Wait>(
    replica: &mut Replica<K>,
    alloc: Global,
    part: &mut F,
    whole: &mut F,
    wait: &W,
) -> bool {
    let open = repair(alloc, replica, part, 8, wait);
    let again = repair(alloc, replica, whole, 1, wait);
    let clean = repair(alloc, replica, whole, 8, wait);
    open == Ok(Repaired::Open { gaps: 1 })
        && again == Ok(Repaired::Again { processed: 1 })
        && clean == Ok(Repaired::Clean)
}

// The same from a keeper on.
fn opens_and_repairs<K: Keeper + Drop, W: Wait>(
    keeper: K,
    alloc: Global,
    chain: Chain,
    wait: &W,
) -> Result<bool, CoreError>
    requires { IfSome (K.told keeper) HasSoundMark }
{
    let mut part = shelf_of(alloc, chain, false)?;
    let mut whole = shelf_of(alloc, chain, true)?;
    let mut replica = opened(alloc, keeper)?;
    Ok(is_repaired(&mut replica, alloc, &mut part, &mut whole, wait))
}

// The same from a keeper on that has nothing yet.
fn repairs<K: Keeper + Drop, W: Wait>(keeper: K, alloc: Global, wait: &W) -> Result<bool, CoreError>
    requires { IfSome (K.told keeper) HasSoundMark }
{
    let chain = make_chain(alloc)?;
    let mut replica = opened(alloc, keeper)?;
    let alone = last_alone(&mut replica, alloc, chain);
    let repaired = opens_and_repairs(replica.stop(), alloc, chain, wait);
    Ok(alone? && repaired?)
}

// What is tried here.
#[derive(Clone, Copy)]
enum Drains {
    Work,
    Repair,
}

impl Trial for Drains {
    fn passes<K: Keeper + Drop, W: Wait>(
        self,
        alloc: Global,
        keeper: K,
        wait: &W,
    ) -> Result<bool, Fail>
    where
        K::Desk: Drop,
    {
        let answer = match self {
            Drains::Work => works(keeper, alloc, wait),
            Drains::Repair => repairs(keeper, alloc, wait),
        };
        Ok(answer?)
    }
}

#[test]
fn a_chain_is_worked_through(rt: HostRuntime) -> Result<(), Fail> {
    assert!(rt; passes(Drains::Work, rt.alloc(), &rt)?);
    Ok(())
}

#[test]
fn a_gap_is_repaired(rt: HostRuntime) -> Result<(), Fail> {
    assert!(rt; passes(Drains::Repair, rt.alloc(), &rt)?);
    Ok(())
}
