// Writers that put and get beside one another, on one replica.
ghost use Rattle.std.specs.Prelude.{◌≡◌, ◌≤◌, ◌<◌, ◌^◌, ◌↔◌, true, Err};
ghost use Rattle.mc_core.specs.Exact.{RunSame};
ghost use Rattle.mc_core.specs.Words.{Becomes, Continues};
ghost use Rattle.mc_storm.specs.Storms.{StormLeads, answer_of, storm_broke};
ghost use Rattle.mc_storm.specs.declared.outcome.StormError.{StormError};

use crate::crews::{gather, hire, write_beside};
use mc_core::Replica;
use mc_keep::Keeper;
use mc_node::{Node, NodeRefused, Stored};
use mc_storm::{StormError, Stormed};
use std::alloc::Global;
use std::marker::Brand;
use std::sync::Wait;
use std::thread::Threads;

/// Lets writers put and get beside one another, each in a thread of its own where one can be made, and gives the
/// replica back. Each writer, of number w from 1, makes its writes in turn, of number i from 1: it puts the key
/// `/storm/w` with the four bytes of i, the highest first, and then gets that key. A put that is refused for its block,
/// by priority, size or a clash, changes nothing, and its writer goes on. Where the keeper tells, the calls are an
/// interleaving of the calls of all writers, each over the blocks that are processed where it comes.
///
/// Refusals: `Stopped`, exactly where an earlier call answered `KeeperFault`; `KeeperFault`, and then the replica has
/// stopped after some first calls of such an interleaving; and `Memory`, after some first calls.
///
/// Conditions: at most 16 writers, and the numbers of their writes have four bytes.
pub fn storm<K: Keeper + Send + Sync, T: Threads + Sync, W: Wait + Sync>(
    alloc: Global,
    replica: Replica<K>,
    writers: u64,
    writes: u64,
    threads: &T,
    wait: &W,
) -> (Replica<K>, Result<Stormed, StormError>)
where
    K::Desk: Send,
    requires few { writers ≤ 16 }
    requires short { writes < 2 ^ 32 }
    ensures leads { Becomes K.Keeper (λ rose s new. StormLeads writers writes result.1 rose s new) replica result.0 }
    ensures keeps { Continues K.Keeper (storm_broke result.1) replica result.0 }
    ensures rest { RunSame replica result.0 }
    ensures stopped { result.1 ≡ Err StormError.Stopped ↔ replica.stopped ≡ true }
    ensures still { replica.stopped ≡ true → result.0 ≡ replica }
{
    match replica.report() {
        Ok(_) => {}
        Err(_) => return (replica, Err(StormError::Stopped)),
    }
    let Ok(mut crew) = Vec::with_capacity(alloc, writers as usize) else {
        return (replica, Err(StormError::Memory));
    };
    match Node::<Stored<K, Brand>>::new(alloc, replica, false, None) {
        Ok((node, seat)) => {
            let mut seat = seat;
            hire(&node, &mut seat, writers, &mut crew);
            write_beside(alloc, &node, &mut crew, writes, threads, wait);
            let wrote = gather(&node, &mut seat, crew, writes);
            end(node.close(seat, wait), wrote)
        }
        Err(refused) => {
            crew.destroy_empty();
            let NodeRefused { replica } = refused;
            (replica, Err(StormError::Memory))
        }
    }
}

// What is answered, with the replica as it comes back.
fn end<K: Keeper>(
    replica: Replica<K>,
    wrote: Option<Stormed>,
) -> (Replica<K>, Result<Stormed, StormError>)
    ensures same { result.0 ≡ replica }
    ensures answer { result.1 ≡ answer_of replica.stopped wrote }
{
    let answer = match replica.report() {
        Ok(_) => match wrote {
            Some(stormed) => Ok(stormed),
            None => Err(StormError::Memory),
        },
        Err(_) => Err(StormError::KeeperFault),
    };
    (replica, answer)
}
