// A work and a repair of a replica, which fetch from its peers.
ghost use Rattle.std.specs.Prelude.{◌≡◌, ◌≤◌, ◌<◌, ◌+◌, ◌^◌, IfOk, List, OnErr, length, map, true, vec_len};
ghost use Rattle.std.specs.List.{insert, remove};
ghost use Rattle.mc_base.specs.Causes.{Rose};
ghost use Rattle.mc_drain.specs.Works.{keeper_broke, peer_broke};
ghost use Rattle.mc_fetch.specs.declared.plants.Planted.{Planted};
ghost use Rattle.mc_lend.specs.Lending.{HaveDesks, marks_of};
ghost use Rattle.mc_pull.specs.Pulls.{DeskRose, DesksGo, finds_at};
ghost use Rattle.mc_script.specs.declared.command.Command.TheVariants.{Repair, Work};
ghost use Rattle.mc_seats.specs.Keepers.{keeper_in};
ghost use Rattle.mc_world.specs.Pulling.{AreAsLong, PullsAmong, PullsKeeper, RepairBy, WorkBy, pulled_answer};
ghost use Rattle.mc_seats.specs.Words.{ActsOn, place};
ghost use Rattle.mc_seats.specs.Works.{repaired_reply, worked_reply};
ghost use Rattle.mc_seats.specs.Worlds.{peer_row, place_with};

use crate::sites::{let_go, sites_of};
use crate::worked::{BUDGET, broken_reply, budget_of, repaired_reply, worked_reply};
use mc_base::List;
use mc_drain::{Repaired, WorkError, Worked};
use mc_keep::Keeper;
use mc_lend::Site;
use mc_script::Reply;
use mc_seats::{ActError, Held, Link, Seat, World, put_at, recount, take_at};
use mc_worker::Gate;
use std::alloc::{AllocError, Global};
use std::sync::Wait;
use std::thread::Threads;

// Works through what a replica wants, at most as many blocks as the budget says, over the replicas that it fetches
// from.
pub(crate) fn work_in<K: Keeper + Send + Sync, G: Gate + Sync, T: Threads + Sync, W: Wait + Sync>(
    world: &mut World<K>,
    alloc: Global,
    r: u64,
    workers: u64,
    budget: Option<u64>,
    gate: &G,
    threads: &T,
    wait: &W,
) -> Result<Reply, ActError>
where
    K::Desk: Send,
    requires there { r < vec_len world.old.seats }
    requires some { 1 ≤ workers }
    requires few { workers ≤ 16 }
    ensures acts { ActsOn K.Keeper K.Desk.faults (Work r workers budget) result world.old world.new }
{
    let seat = take_at(&mut world.seats, r as usize);
    let list = take_at(&mut world.desks, r as usize);
    let (seat, worked) = work_seat(
        alloc,
        seat,
        world.seats.as_slice(),
        world.desks.as_mut_slice(),
        world.down.as_slice(),
        r,
        workers,
        budget_of(budget),
        gate,
        threads,
        wait,
    );
    put_at(&mut world.desks, r as usize, list);
    put_at(&mut world.seats, r as usize, seat);
    recount::<K>(&mut world.desk_counts, world.desks.as_slice());
    match worked {
        Ok(worked) => worked_answer(worked),
        Err(AllocError) => Err(ActError::Memory),
    }
}

// Repairs a replica over those that it fetches from.
pub(crate) fn repair_in<K: Keeper + Send + Sync, G: Gate + Sync, T: Threads + Sync, W: Wait + Sync>(
    world: &mut World<K>,
    alloc: Global,
    r: u64,
    workers: u64,
    gate: &G,
    threads: &T,
    wait: &W,
) -> Result<Reply, ActError>
where
    K::Desk: Send,
    requires there { r < vec_len world.old.seats }
    requires some { 1 ≤ workers }
    requires few { workers ≤ 16 }
    ensures acts { ActsOn K.Keeper K.Desk.faults (Repair r workers) result world.old world.new }
{
    let seat = take_at(&mut world.seats, r as usize);
    let list = take_at(&mut world.desks, r as usize);
    let (seat, repaired) = repair_seat(
        alloc,
        seat,
        world.seats.as_slice(),
        world.desks.as_mut_slice(),
        world.down.as_slice(),
        r,
        workers,
        gate,
        threads,
        wait,
    );
    put_at(&mut world.desks, r as usize, list);
    put_at(&mut world.seats, r as usize, seat);
    recount::<K>(&mut world.desk_counts, world.desks.as_slice());
    match repaired {
        Ok(repaired) => repaired_answer(repaired),
        Err(AllocError) => Err(ActError::Memory),
    }
}

// What is answered for a work.
fn worked_answer(worked: Result<Worked, WorkError>) -> Result<Reply, ActError>
    ensures { result ≡ pulled_answer worked_reply worked }
{
    match worked {
        Ok(worked) => Ok(worked_reply(worked)),
        Err(error) => broken_reply(error),
    }
}

// What is answered for a repair.
fn repaired_answer(repaired: Result<Repaired, WorkError>) -> Result<Reply, ActError>
    ensures { result ≡ pulled_answer repaired_reply repaired }
{
    match repaired {
        Ok(repaired) => Ok(repaired_reply(repaired)),
        Err(error) => broken_reply(error),
    }
}

// A work of the replica r in its seat, beside the others, whose desks these are. Refused is want of memory, and then
// nothing has changed.
fn work_seat<K: Keeper + Send + Sync, G: Gate + Sync, T: Threads + Sync, W: Wait + Sync>(
    alloc: Global,
    seat: Seat<K>,
    others: &[Seat<K>],
    desks: &mut [List<K::Desk>],
    down: &[Link],
    r: u64,
    workers: u64,
    budget: u64,
    gate: &G,
    threads: &T,
    wait: &W,
) -> (Seat<K>, Result<Result<Worked, WorkError>, AllocError>)
where
    K::Desk: Send,
    requires there { r ≤ length others.now }
    requires short { length others.now + 1 < 2 ^ 64 }
    requires some { 1 ≤ workers }
    requires few { workers ≤ 16 }
    requires desked { HaveDesks workers
        (remove (peer_row down.now r 0 (map (place K.Keeper) (insert others.now r seat))) r) desks.old }
    ensures pulls { IfOk result.1 (λ worked. PullsAmong K.Keeper down.now r K.Desk.faults (WorkBy budget worked)
        (keeper_broke worked) (peer_broke worked) (insert others.now r seat) (insert others.now r result.0)
        desks.old desks.new) }
    ensures same { OnErr result.1 ((result.0 ≡ seat) × (desks.new ≡ desks.old)) }
    ensures long { AreAsLong desks.old desks.new }
{
    let (before, after) = others.split_at(r as usize);
    let sites = match sites_of(alloc, before, after, down, r) {
        Ok(sites) => sites,
        Err(AllocError) => return (seat, Err(AllocError)),
    };
    let Seat { held, planted } = seat;
    let (held, worked) = work_held(
        alloc,
        held,
        sites.as_slice(),
        desks,
        workers,
        budget,
        gate,
        threads,
        wait,
    );
    let_go(sites);
    (Seat { held, planted }, Ok(worked))
}

// A repair of it.
fn repair_seat<K: Keeper + Send + Sync, G: Gate + Sync, T: Threads + Sync, W: Wait + Sync>(
    alloc: Global,
    seat: Seat<K>,
    others: &[Seat<K>],
    desks: &mut [List<K::Desk>],
    down: &[Link],
    r: u64,
    workers: u64,
    gate: &G,
    threads: &T,
    wait: &W,
) -> (Seat<K>, Result<Result<Repaired, WorkError>, AllocError>)
where
    K::Desk: Send,
    requires there { r ≤ length others.now }
    requires short { length others.now + 1 < 2 ^ 64 }
    requires some { 1 ≤ workers }
    requires few { workers ≤ 16 }
    requires desked { HaveDesks workers
        (remove (peer_row down.now r 0 (map (place K.Keeper) (insert others.now r seat))) r) desks.old }
    ensures pulls { IfOk result.1 (λ repaired. PullsAmong K.Keeper down.now r K.Desk.faults (RepairBy repaired)
        (keeper_broke repaired) (peer_broke repaired) (insert others.now r seat) (insert others.now r result.0)
        desks.old desks.new) }
    ensures same { OnErr result.1 ((result.0 ≡ seat) × (desks.new ≡ desks.old)) }
    ensures long { AreAsLong desks.old desks.new }
{
    let (before, after) = others.split_at(r as usize);
    let sites = match sites_of(alloc, before, after, down, r) {
        Ok(sites) => sites,
        Err(AllocError) => return (seat, Err(AllocError)),
    };
    let Seat { held, planted } = seat;
    let (held, repaired) = repair_held(
        alloc,
        held,
        sites.as_slice(),
        desks,
        workers,
        gate,
        threads,
        wait,
    );
    let_go(sites);
    (Seat { held, planted }, Ok(repaired))
}

// A work of what is held at a seat.
fn work_held<'a, K: Keeper + Send + Sync, G: Gate + Sync, T: Threads + Sync, W: Wait + Sync>(
    alloc: Global,
    held: Held<K>,
    sites: &[Site<'a, K>],
    desks: &mut [List<K::Desk>],
    workers: u64,
    budget: u64,
    gate: &G,
    threads: &T,
    wait: &W,
) -> (Held<K>, Result<Worked, WorkError>)
where
    K::Desk: Send,
    requires some { 1 ≤ workers }
    requires few { workers ≤ 16 }
    requires desked { HaveDesks workers (marks_of sites.now) desks.old }
    ensures pulls { (planted : List Planted) → WorkBy budget result.1 (finds_at K.told sites.now)
        (Rose (K.own (keeper_in held)) (K.own (keeper_in result.0)))
        (place_with K.told K.fuse planted held) (place_with K.told K.fuse planted result.0) }
    ensures of_keeper { PullsKeeper K.Keeper (keeper_broke result.1) (keeper_in held) (keeper_in result.0) }
    ensures desks { DesksGo K.Keeper K.Desk.faults sites.now desks.old desks.new }
    ensures peers { peer_broke result.1 ≡ true → DeskRose K.Desk.faults (marks_of sites.now) desks.old desks.new }
{
    match held {
        Held::Up(replica) => {
            let (replica, worked) = mc_pull::work(
                alloc, replica, sites, desks, workers, budget, gate, threads, wait,
            );
            (Held::Up(replica), worked)
        }
        Held::Down(idle) => (Held::Down(idle), Err(WorkError::Stopped)),
    }
}

// A repair of it.
fn repair_held<'a, K: Keeper + Send + Sync, G: Gate + Sync, T: Threads + Sync, W: Wait + Sync>(
    alloc: Global,
    held: Held<K>,
    sites: &[Site<'a, K>],
    desks: &mut [List<K::Desk>],
    workers: u64,
    gate: &G,
    threads: &T,
    wait: &W,
) -> (Held<K>, Result<Repaired, WorkError>)
where
    K::Desk: Send,
    requires some { 1 ≤ workers }
    requires few { workers ≤ 16 }
    requires desked { HaveDesks workers (marks_of sites.now) desks.old }
    ensures pulls { (planted : List Planted) → RepairBy result.1 (finds_at K.told sites.now)
        (Rose (K.own (keeper_in held)) (K.own (keeper_in result.0)))
        (place_with K.told K.fuse planted held) (place_with K.told K.fuse planted result.0) }
    ensures of_keeper { PullsKeeper K.Keeper (keeper_broke result.1) (keeper_in held) (keeper_in result.0) }
    ensures desks { DesksGo K.Keeper K.Desk.faults sites.now desks.old desks.new }
    ensures peers { peer_broke result.1 ≡ true → DeskRose K.Desk.faults (marks_of sites.now) desks.old desks.new }
{
    match held {
        Held::Up(replica) => {
            let (replica, repaired) = mc_pull::repair(
                alloc, replica, sites, desks, workers, BUDGET, gate, threads, wait,
            );
            (Held::Up(replica), repaired)
        }
        Held::Down(idle) => (Held::Down(idle), Err(WorkError::Stopped)),
    }
}
