// How a world begins and ends.
ghost use Rattle.std.specs.Prelude.{◌≡◌, ◌≤◌, ◌+◌, ◌++◌, [], true, IfOk, IfErr, length, vec_len, vec_capacity};
ghost use Rattle.mc_seats.specs.Keepers.{are_laid, armed_in, counted_in, is_calm, keeper_of};
ghost use Rattle.mc_seats.specs.Openings.{
  AreFresh,
  AreOpened,
  AreRefused,
  HaveOwnDesks,
  are_calm,
  owns_of,
  parts_of,
  starts_of,
};
ghost use Rattle.mc_seats.specs.Words.{state};
ghost use Rattle.mc_seats.specs.Starts.{IsFirst};
ghost use Rattle.mc_seats.specs.Worlds.{no_bag};

use crate::parting::{NoPart, Opened, open_part};
use crate::seat::{Held, Seat, wake};
use crate::seats::{put_first, take_first};
use crate::sums::push_counts;
use crate::{Bag, NoWorld, Part, World};
use mc_base::List;
use mc_core::OpenCause;
use mc_keep::Keeper;
use std::alloc::{AllocError, Global};

impl<K: Keeper> World<K> {
    /// Opens the replicas of the parts, in order, and makes sixteen desks for each: `parts` are the keepers in order of
    /// the replicas' names, each with a sound mark, no fuse and no desks. Each keeper first migrates to layout 2, which
    /// changes nothing of what it tells. No message is sent, all links are up, nothing is planted, and the record is
    /// empty; each desk has the plan that its keeper had for it. Refusals: `KeeperFault`, where a keeper failed, which
    /// has counted it, and `Memory`. They hand the parts back in order, with the desks that were made; what a migration
    /// has written before stays.
    pub fn new(alloc: Global, parts: List<Part<K>>) -> Result<World<K>, NoWorld<K>>
        requires fresh { AreFresh K.told K.fuse parts }
        ensures first { IfOk result (λ world.
            IsFirst (starts_of K.told parts) (state K.Keeper K.Desk.faults world)) }
        ensures entries { IfOk result (λ world. world.entries ≡ []) }
        ensures counted { IfOk result (λ world. counted_in K.Keeper K.Desk.faults world ≡ owns_of K.Keeper parts) }
        ensures unarmed { IfOk result (λ world. armed_in K.Keeper world.seats.items ≡ 0) }
        ensures calm { IfOk result (λ world.
            are_calm K.Keeper parts ≡ true → is_calm K.Keeper K.Desk.faults world ≡ true) }
        ensures own { IfOk result (λ world. HaveOwnDesks K.Keeper parts world.desks.items) }
        ensures refused { IfErr result (λ refused. AreRefused K.Keeper refused.cause parts refused.parts) }
    {
        let parts = parts.into_vec();
        match reserve(alloc, parts.len()) {
            Ok(rooms) => open_all(alloc, rooms, parts),
            Err(AllocError) => Err(NoWorld {
                cause: OpenCause::Memory,
                parts: List::from_vec(parts),
            }),
        }
    }

    /// The keeper of each replica, which runs or doesn't, has the winner row of each key with a value. A caller has
    /// this of every world, also of the first one. Does nothing.
    pub fn is_laid(&self)
        ensures { are_laid K.layout self.now.seats.items ≡ true }
    {}

    /// Hands back the keepers in order of the replicas' names, each as it is, with its desks. Takes no memory.
    pub fn end(self) -> List<Part<K>>
        ensures { result ≡ parts_of self.seats.items self.desks.items }
    {
        let World {
            seats,
            desks,
            desk_counts: _,
            bag: _,
            down: _,
            room,
            entries: _,
        } = self;
        join(seats, desks, room)
    }
}

// Room for the replicas of a world, and for their desks.
struct Rooms<K: Keeper> {
    seats: Vec<Seat<K>>,
    desks: Vec<List<K::Desk>>,
    counts: Vec<u64>,
}

// Room for so many replicas.
fn reserve<K: Keeper>(alloc: Global, count: usize) -> Result<Rooms<K>, AllocError>
    ensures empty { IfOk result (λ rooms. (rooms.seats.items ≡ []) × (rooms.desks.items ≡ [])) }
    ensures seats { IfOk result (λ rooms. count ≤ vec_capacity rooms.seats) }
    ensures desks { IfOk result (λ rooms. count ≤ vec_capacity rooms.desks) }
    ensures counts { IfOk result (λ rooms. (rooms.counts.items ≡ []) × (count ≤ vec_capacity rooms.counts)) }
{
    let counts = Vec::with_capacity(alloc, count)?;
    let seats = Vec::with_capacity(alloc, count)?;
    match Vec::with_capacity(alloc, count) {
        Ok(desks) => Ok(Rooms {
            seats,
            desks,
            counts,
        }),
        Err(AllocError) => {
            seats.destroy_empty();
            Err(AllocError)
        }
    }
}

// Opens all parts in order, in empty rooms for so many.
fn open_all<K: Keeper>(
    alloc: Global,
    rooms: Rooms<K>,
    parts: Vec<Part<K>>,
) -> Result<World<K>, NoWorld<K>>
    requires fresh { AreFresh K.told K.fuse parts.items }
    requires empty { (rooms.seats.items ≡ []) × (rooms.desks.items ≡ []) }
    requires seats { vec_len parts ≤ vec_capacity rooms.seats }
    requires desks { vec_len parts ≤ vec_capacity rooms.desks }
    requires counts { (rooms.counts.items ≡ []) × (vec_len parts ≤ vec_capacity rooms.counts) }
    ensures opened { IfOk result (λ world.
        AreOpened K.Keeper K.Desk.faults parts.items world.seats.items world.desks.items) }
    ensures around { IfOk result (λ world. (world.bag ≡ no_bag) × (world.down.items ≡ [])) }
    ensures entries { IfOk result (λ world. world.entries ≡ []) }
    ensures refused { IfErr result (λ refused. AreRefused K.Keeper refused.cause parts.items refused.parts) }
{
    let Rooms {
        seats,
        desks,
        counts,
    } = rooms;
    let mut seats = seats;
    let mut desks = desks;
    let mut counts = counts;
    let mut parts = parts;
    while parts.len() > 0 {
        match open_part(alloc, take_first(&mut parts)) {
            Ok(opened) => {
                let Opened { seat, desks: made } = opened;
                seats.push_reserved(seat);
                desks.push_reserved(made);
            }
            Err(unopened) => {
                let NoPart { cause, part } = unopened;
                put_first(&mut parts, part);
                let parts = join(seats, desks, parts);
                return Err(NoWorld { cause, parts });
            }
        }
    }
    push_counts::<K>(&mut counts, desks.as_slice());
    Ok(World {
        seats,
        desks,
        desk_counts: counts,
        bag: Bag {
            messages: List::new(alloc),
            cars: List::new(alloc),
        },
        down: Vec::new(alloc),
        room: parts,
        entries: List::new(alloc),
    })
}

// The keepers of some replicas with their desks, before some other parts, which have the room for them.
fn join<K: Keeper>(
    seats: Vec<Seat<K>>,
    desks: Vec<List<K::Desk>>,
    parts: Vec<Part<K>>,
) -> List<Part<K>>
    requires same { vec_len seats ≡ vec_len desks }
    requires room { vec_len seats + vec_len parts ≤ vec_capacity parts }
    ensures { result ≡ parts_of seats.items desks.items ++ parts.items }
{
    let mut seats = seats;
    let mut desks = desks;
    let mut parts = parts;
    while seats.len() > 0 {
        let keeper = keeper_of(seats.take_last());
        let desks = desks.take_last();
        put_first(&mut parts, Part { keeper, desks });
    }
    seats.destroy_empty();
    desks.destroy_empty();
    List::from_vec(parts)
}

// The keeper of a replica that runs or doesn't.
fn keeper_of<K: Keeper>(seat: Seat<K>) -> K
    ensures { result ≡ keeper_of seat }
{
    let Seat { held, planted: _ } = seat;
    match held {
        Held::Up(replica) => replica.stop(),
        Held::Down(idle) => wake(idle),
    }
}
