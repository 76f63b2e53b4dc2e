// The blocks that give keys their values.
ghost use Rattle.std.specs.Prelude.{IfSome};
ghost use Rattle.mc_model.specs.State.{HasSoundMark};

use crate::running::opened;
use mc_base::{Bytes, Cid, Text};
use mc_block::write_block;
use mc_core::{CoreError, Replica};
use mc_keep::{KeepError, Keeper};
use mc_keep_tests::{ORDERS, Trial, has_value, no_delta, passes, take_up};
use mc_model::{Element, Tomb, id_of};
use std::alloc::{AllocError, Global};
use std::sync::Wait;
use std::test::Fail;

// The bytes of a block of priority 1 that sets a key to 1, and another key to this number: the three blocks tie.
fn tied(alloc: Global, number: u8) -> Result<Bytes, AllocError> {
    let mut delta = no_delta(alloc, 1);
    for (key, value) in [("/k", 1), ("/x", number)] {
        delta.elements.push(Element {
            key: Text::from_text(alloc, key)?,
            value: Bytes::from_slice(alloc, &[value])?,
        })?;
    }
    Ok(write_block(alloc, &[], &delta)?.bytes)
}

fn cid_of(alloc: Global, number: u8) -> Result<Cid, AllocError> {
    Ok(Cid::of(tied(alloc, number)?.as_slice()))
}

// The bytes of a block of priority 2 that hides the key in a block.
fn tombstone(alloc: Global, cid: &Cid) -> Result<Bytes, AllocError> {
    let mut delta = no_delta(alloc, 2);
    delta.tombstones.push(Tomb {
        key: Text::from_text(alloc, "/k")?,
        id: id_of(alloc, cid)?,
    })?;
    Ok(write_block(alloc, &[], &delta)?.bytes)
}

// The identifiers of the three blocks, ascending, each with its number.
fn sorted(alloc: Global) -> Result<Vec<(Cid, u8)>, AllocError> {
    let mut blocks = Vec::new(alloc);
    for number in [0, 1, 2] {
        blocks.push((cid_of(alloc, number)?, number))?;
    }
    blocks.sort()?;
    Ok(blocks)
}

// The least of these places.
fn least(places: &[u8]) -> Option<u8> {
    let mut least = None;
    for place in places {
        least = match least {
            Some(found) if found <= *place => Some(found),
            _ => Some(*place),
        };
    }
    least
}

// Whether the key has its value from the block at the least of these places, and none where there is none.
fn wins<K: Keeper>(
    keeper: &mut K,
    alloc: Global,
    blocks: &[(Cid, u8)],
    live: &[u8],
) -> Result<bool, KeepError> {
    let winner = keeper.winner("/k")?;
    let Some(place) = least(live) else {
        return Ok(winner.is_none() && !keeper.has("/k")?);
    };
    match blocks.get(usize::from(place)) {
        Some((cid, _)) => Ok(winner == Some(*cid) && has_value(keeper, alloc, 1, 1)?),
        None => Ok(false),
    }
}

// Takes up the block at a place, after which those at these places are live.
fn comes<K: Keeper>(
    keeper: &mut K,
    alloc: Global,
    blocks: &[(Cid, u8)],
    place: u8,
    live: &[u8],
) -> Result<bool, KeepError> {
    let Some((_, number)) = blocks.get(usize::from(place)) else {
        return Ok(false);
    };
    take_up(keeper, alloc, tied(alloc, *number)?)?;
    wins(keeper, alloc, blocks, live)
}

// Hides the key in the block at a place.
fn goes<K: Keeper>(
    keeper: &mut K,
    alloc: Global,
    blocks: &[(Cid, u8)],
    place: u8,
    live: &[u8],
) -> Result<bool, KeepError> {
    let Some((cid, _)) = blocks.get(usize::from(place)) else {
        return Ok(false);
    };
    take_up(keeper, alloc, tombstone(alloc, cid)?)?;
    wins(keeper, alloc, blocks, live)
}

// Three blocks that tie come in one order and are hidden in another: at each moment the least one that is live wins.
fn ties<K: Keeper + Drop>(
    keeper: K,
    alloc: Global,
    come: [u8; 3],
    go: [u8; 3],
) -> Result<bool, KeepError> {
    let mut keeper = keeper;
    let blocks = sorted(alloc)?;
    let blocks = blocks.as_slice();
    let [first, second, third] = come;
    let came = comes(&mut keeper, alloc, blocks, first, &[first])?
        && comes(&mut keeper, alloc, blocks, second, &[first, second])?
        && comes(&mut keeper, alloc, blocks, third, &[first, second, third])?;
    let [first, second, third] = go;
    Ok(
        came && goes(&mut keeper, alloc, blocks, first, &[second, third])?
            && goes(&mut keeper, alloc, blocks, second, &[third])?
            && goes(&mut keeper, alloc, blocks, third, &[])?,
    )
}

// The first put of a replica, whose block is this.
const FIRST: [u8; 13] = *b"\x0a\x0b\x0a\x07\x0a\x02/a\x1a\x01\x01\x18\x01";

fn tells_who<K: Keeper>(replica: &mut Replica<K>, alloc: Global) -> Result<bool, CoreError> {
    let before = replica.who("/a")?;
    replica.put(alloc, "/a", &[1])?;
    let who = replica.who("/a")?;
    let other = replica.who("/b")?;
    Ok(before.is_none() && who == Some(Cid::of(&FIRST)) && other.is_none())
}

// The same from its keeper on.
fn opens_and_tells<K: Keeper + Drop>(keeper: K, alloc: Global) -> Result<bool, CoreError>
    requires { IfSome (K.told keeper) HasSoundMark }
{
    let mut replica = opened(alloc, keeper)?;
    tells_who(&mut replica, alloc)
}

// What is tried here.
#[derive(Clone, Copy)]
enum Winners {
    Tie { come: [u8; 3], go: [u8; 3] },
    Tell,
}

impl Trial for Winners {
    fn passes<K: Keeper + Drop, W: Wait>(
        self,
        alloc: Global,
        keeper: K,
        _wait: &W,
    ) -> Result<bool, Fail>
    where
        K::Desk: Drop,
    {
        match self {
            Winners::Tie { come, go } => Ok(ties(keeper, alloc, come, go)?),
            Winners::Tell => Ok(opens_and_tells(keeper, alloc)?),
        }
    }
}

#[test]
fn the_least_of_the_blocks_that_tie_wins(rt: HostRuntime) -> Result<(), Fail> {
    let alloc = rt.alloc();
    for come in ORDERS {
        for go in ORDERS {
            assert!(rt;
                passes(Winners::Tie { come, go }, alloc, &rt)?,
                "{come:?} {go:?}"
            );
        }
    }
    Ok(())
}

#[test]
fn a_replica_tells_who_gives_a_value(rt: HostRuntime) -> Result<(), Fail> {
    assert!(rt; passes(Winners::Tell, rt.alloc(), &rt)?);
    Ok(())
}
