// Fetches from peers whose keepers are in memory.
use crate::blocks::store_bytes;
use mc_base::{Bytes, Cid, Counted, List};
use mc_fetch::{FetchError, PeerFetch, PeerView, Planted, Plants, first_match};
use mc_keep::{KeepError, Keeper};
use mc_keep_mem::{FaultPlan, MemKeeper};
use std::alloc::{AllocError, Global};
use std::sync::Wait;
use std::test::Fail;

// What is planted at a peer for the block.
#[derive(Clone, Copy)]
enum Plant {
    Nothing,
    Wrong,
    Block,
}

// A peer: what is planted there, whether it has the block stored, and whether the first read of its desk fails.
#[derive(Clone, Copy)]
struct Peer {
    plant: Plant,
    stored: bool,
    fails: bool,
}

// What two fetches in turn come to.
#[derive(Clone, Copy, PartialEq, Eq)]
enum Answer {
    Block,
    Nothing,
    Fault,
}

const NOTHING: Peer = Peer {
    plant: Plant::Nothing,
    stored: false,
    fails: false,
};

const WRONG: Peer = Peer {
    plant: Plant::Wrong,
    stored: false,
    fails: false,
};

const STORED: Peer = Peer {
    plant: Plant::Nothing,
    stored: true,
    fails: false,
};

const WRONG_AND_STORED: Peer = Peer {
    plant: Plant::Wrong,
    stored: true,
    fails: false,
};

const FAILING: Peer = Peer {
    plant: Plant::Nothing,
    stored: true,
    fails: true,
};

const PLANTED: Peer = Peer {
    plant: Plant::Block,
    stored: false,
    fails: true,
};

// The blocks of no bytes and of no data.
const EMPTY: &[u8] = b"";

const NO_DATA: &[u8] = b"\x0a\x00";

#[derive(Clone, Copy)]
struct Row {
    bytes: &'static [u8],
    peers: &'static [Peer],
    answers: [Answer; 2],
    faults: u64,
}

// A keeper in memory whose first desk fails its first read, where that is so.
fn keeper_of(alloc: Global, peer: Peer) -> Result<MemKeeper, AllocError> {
    let mut plan = FaultPlan::nothing(alloc);
    let mut reads = List::new(alloc);
    if peer.fails {
        reads.push(1)?;
    }
    plan.desks.push(reads)?;
    MemKeeper::new(alloc, plan)
}

fn keepers_of(alloc: Global, peers: &[Peer]) -> Result<Vec<MemKeeper>, AllocError> {
    let mut keepers = Vec::new(alloc);
    for peer in peers {
        keepers.push(keeper_of(alloc, *peer)?)?;
    }
    Ok(keepers)
}

fn plants_of(alloc: Global, peer: Peer, bytes: &[u8]) -> Result<Plants, AllocError> {
    let mut plants = Plants::new(alloc);
    let planted = match peer.plant {
        Plant::Nothing => return Ok(plants),
        Plant::Wrong => Bytes::from_slice(alloc, b"wrong")?,
        Plant::Block => Bytes::from_slice(alloc, bytes)?,
    };
    plants.plant(Planted {
        cid: Cid::of(bytes),
        bytes: planted,
    })?;
    Ok(plants)
}

fn all_plants(alloc: Global, peers: &[Peer], bytes: &[u8]) -> Result<Vec<Plants>, AllocError> {
    let mut plants = Vec::new(alloc);
    for peer in peers {
        plants.push(plants_of(alloc, *peer, bytes)?)?;
    }
    Ok(plants)
}

// Stores the block at the peers that have it, and makes a desk of each keeper.
fn ready<K: Keeper>(
    alloc: Global,
    keepers: &mut [K],
    peers: &[Peer],
    bytes: &[u8],
) -> Result<Vec<K::Desk>, KeepError>
where
    K::Desk: Drop,
{
    let mut desks = Vec::new(alloc);
    for (keeper, peer) in keepers.iter_mut().zip(peers.iter()) {
        if peer.stored {
            store_bytes(keeper, alloc, Bytes::from_slice(alloc, bytes)?)?;
        }
        let desk = keeper.desk(alloc)?;
        if desks.push(desk).is_err() {
            return Err(KeepError::Memory);
        }
    }
    Ok(desks)
}

fn views_of<'a, K: Keeper>(
    alloc: Global,
    keepers: &'a [K],
    desks: Vec<K::Desk>,
    plants: &'a [Plants],
) -> Result<List<PeerView<'a, K>>, AllocError>
where
    K::Desk: Drop,
{
    let mut views = List::new(alloc);
    for ((keeper, planted), desk) in keepers.iter().zip(plants.iter()).zip(desks) {
        views.push(PeerView {
            keeper,
            desk,
            planted,
        })?;
    }
    Ok(views)
}

fn answer_of(cid: &Cid, found: Result<Option<Bytes>, FetchError>) -> Result<Answer, KeepError> {
    match found {
        Ok(Some(bytes)) => {
            if Cid::of(bytes.as_slice()) == *cid {
                Ok(Answer::Block)
            } else {
                Err(KeepError::Memory)
            }
        }
        Ok(None) => Ok(Answer::Nothing),
        Err(FetchError::Failed) => Ok(Answer::Fault),
        Err(FetchError::Memory) => Err(KeepError::Memory),
    }
}

// Whether the views came back in their order, each with what is planted at its peer.
fn in_order<K: Keeper>(views: &[PeerView<K>], peers: &[Peer], cid: &Cid) -> bool {
    for (view, peer) in views.iter().zip(peers.iter()) {
        let planted = view.planted.get(cid).is_some();
        if planted == matches!(peer.plant, Plant::Nothing) {
            return false;
        }
        if !peer.fails && view.desk.faults() > 0 {
            return false;
        }
    }
    views.len() == peers.len()
}

fn fetches<K: Keeper + Drop, W: Wait>(
    rt: &W,
    alloc: Global,
    keepers: Vec<K>,
    row: &Row,
) -> Result<bool, KeepError>
where
    K::Desk: Drop,
{
    let mut keepers = keepers;
    let cid = Cid::of(row.bytes);
    let desks = ready(alloc, keepers.as_mut_slice(), row.peers, row.bytes)?;
    let plants = all_plants(alloc, row.peers, row.bytes)?;
    let views = views_of(alloc, keepers.as_slice(), desks, plants.as_slice())?;
    let mut fetch = PeerFetch::new(views);
    let answers = [
        answer_of(&cid, first_match(alloc, &mut fetch, &cid, rt))?,
        answer_of(&cid, first_match(alloc, &mut fetch, &cid, rt))?,
    ];
    let counted = fetch.faults() == row.faults;
    let views = fetch.end();
    Ok(answers == row.answers && counted && in_order(views.as_slice(), row.peers, &cid))
}

const fn row_of(
    bytes: &'static [u8],
    peers: &'static [Peer],
    answers: [Answer; 2],
    faults: u64,
) -> Row {
    Row {
        bytes,
        peers,
        answers,
        faults,
    }
}

#[test]
fn peers_are_asked_in_order(rt: HostRuntime) -> Result<(), Fail> {
    let alloc = rt.alloc();
    let found = [Answer::Block, Answer::Block];
    let missing = [Answer::Nothing, Answer::Nothing];
    let late = [Answer::Fault, Answer::Block];
    for row in [
        row_of(NO_DATA, &[WRONG, STORED], found, 0),
        row_of(NO_DATA, &[WRONG_AND_STORED, WRONG], found, 0),
        row_of(NO_DATA, &[WRONG, NOTHING], missing, 0),
        row_of(NO_DATA, &[NOTHING, NOTHING, NOTHING], missing, 0),
        row_of(NO_DATA, &[WRONG, WRONG, STORED], found, 0),
        row_of(NO_DATA, &[FAILING, STORED], late, 1),
        row_of(NO_DATA, &[STORED, FAILING], found, 0),
        row_of(NO_DATA, &[PLANTED, FAILING], found, 0),
        row_of(NO_DATA, &[WRONG, FAILING, PLANTED], late, 1),
        row_of(EMPTY, &[WRONG, PLANTED], found, 0),
        row_of(EMPTY, &[NOTHING, WRONG_AND_STORED], found, 0),
    ] {
        assert!(rt; fetches(&rt, alloc, keepers_of(alloc, row.peers)?, &row)?);
    }
    Ok(())
}
