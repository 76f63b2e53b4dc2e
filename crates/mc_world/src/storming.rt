// A storm: writers that put and get beside one another, on one replica.
ghost use Rattle.std.specs.Prelude.{◌≡◌, ◌≤◌, ◌<◌, ◌^◌, vec_len};
ghost use Rattle.mc_script.specs.declared.command.Command.TheVariants.{Storm};
ghost use Rattle.mc_seats.specs.Storming.{storm_answer};
ghost use Rattle.mc_seats.specs.Words.{ActsOn, SeatActs};

use mc_keep::Keeper;
use mc_script::Reply;
use mc_seats::{ActError, Held, Seat, World, put_at, take_at};
use mc_storm::{StormError, Stormed};
use mc_writers::storm;
use std::alloc::Global;
use std::sync::Wait;
use std::thread::Threads;

// Lets writers put and get beside one another on a replica.
pub(crate) fn storm_in<K: Keeper + Send + Sync, T: Threads + Sync, W: Wait + Sync>(
    world: &mut World<K>,
    alloc: Global,
    r: u64,
    writers: u64,
    writes: u64,
    threads: &T,
    wait: &W,
) -> Result<Reply, ActError>
where
    K::Desk: Send,
    requires there { r < vec_len world.old.seats }
    requires few { writers ≤ 16 }
    requires short { writes < 2 ^ 32 }
    ensures acts { ActsOn K.Keeper K.Desk.faults (Storm r writers writes) result world.old world.new }
{
    let seat = take_at(&mut world.seats, r as usize);
    let (seat, result) = storm_at(seat, alloc, r, writers, writes, threads, wait);
    put_at(&mut world.seats, r as usize, seat);
    result
}

// The same of the replica in a seat, which comes back to it.
fn storm_at<K: Keeper + Send + Sync, T: Threads + Sync, W: Wait + Sync>(
    seat: Seat<K>,
    alloc: Global,
    r: u64,
    writers: u64,
    writes: u64,
    threads: &T,
    wait: &W,
) -> (Seat<K>, Result<Reply, ActError>)
where
    K::Desk: Send,
    requires few { writers ≤ 16 }
    requires short { writes < 2 ^ 32 }
    ensures acts { SeatActs K.Keeper (Storm r writers writes) result.1 seat result.0 }
{
    let Seat { held, planted } = seat;
    match held {
        Held::Up(replica) => {
            let (replica, stormed) = storm(alloc, replica, writers, writes, threads, wait);
            let held = Held::Up(replica);
            (Seat { held, planted }, storm_answer(stormed))
        }
        Held::Down(idle) => {
            let held = Held::Down(idle);
            (Seat { held, planted }, Ok(Reply::Stopped))
        }
    }
}

// What is answered for a storm.
fn storm_answer(stormed: Result<Stormed, StormError>) -> Result<Reply, ActError>
    ensures { result ≡ storm_answer stormed }
{
    match stormed {
        Ok(Stormed { made, same }) => Ok(Reply::Stormed { made, same }),
        Err(StormError::KeeperFault) => Ok(Reply::FaultKeeper),
        Err(StormError::Stopped) => Ok(Reply::Stopped),
        Err(StormError::Memory) => Err(ActError::Memory),
    }
}
