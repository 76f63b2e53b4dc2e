// Commands of one replica among others.
ghost use Rattle.std.specs.Prelude.{ℕ, ◌≡◌, ◌≤◌, ◌<◌, true, Ok, Some, vec_len};
ghost use Rattle.mc_script.specs.declared.command.Command.TheVariants.{Link as LinkOf, Open, Plant, State, Stop};
ghost use Rattle.mc_seats.specs.Arming.{arming};
ghost use Rattle.mc_seats.specs.Asks.{is_there};
ghost use Rattle.mc_seats.specs.Calls.{is_call};
ghost use Rattle.mc_seats.specs.Holds.{run_in};
ghost use Rattle.mc_seats.specs.Keepers.{keeper_in, keeper_of};
ghost use Rattle.mc_seats.specs.Effects.{armed};
ghost use Rattle.mc_seats.specs.Pasts.{PastsFit};
ghost use Rattle.mc_seats.specs.Words.{ActsOn, KeeperGoes, SeatActs, place, state};
ghost use Rattle.mc_script.specs.declared.reply.Reply.{Reply};

use crate::asks::replica_of;
use mc_base::Cid;
use mc_keep::{Fused, Keeper};
use mc_past::Past;
use mc_script::{Command, Reply};
use mc_seats::{
    ActError, Held, Idle, Seat, World, call_at, open_at, plant_at, put_at, set_link, state_at,
    stop_at, take_at,
};
use std::alloc::{AllocError, Global};

/// Executes a command that is one call of a replica, of each of which `pasts` has what is kept of its past.
pub fn call_in<K: Keeper>(
    world: &mut World<K>,
    pasts: &mut [Past],
    alloc: Global,
    command: &Command,
) -> Result<Reply, ActError>
    requires there { is_there (state K.Keeper K.Desk.faults world.old) command.now ≡ true }
    requires call { is_call command.now ≡ true }
    requires fits { PastsFit (state K.Keeper K.Desk.faults world.old) pasts.old }
    ensures acts { ActsOn K.Keeper K.Desk.faults command.now result world.old world.new }
    ensures fits { PastsFit (state K.Keeper K.Desk.faults world.old) pasts.new }
{
    let r = replica_of(command) as usize;
    call_at(&mut world.seats[r], &mut pasts[r], alloc, command)
}

/// Asks a replica for its numbers.
pub fn state_in<K: Keeper>(world: &mut World<K>, r: u64) -> Result<Reply, ActError>
    requires there { r < vec_len world.old.seats }
    ensures acts { ActsOn K.Keeper K.Desk.faults (State r) result world.old world.new }
{
    state_at(&mut world.seats[r as usize], r)
}

/// Plants an offer at a replica.
pub fn plant_in<K: Keeper>(
    world: &mut World<K>,
    alloc: Global,
    r: u64,
    cid: &Cid,
    bytes: &[u8],
) -> Result<Reply, ActError>
    requires there { r < vec_len world.old.seats }
    ensures acts { ActsOn K.Keeper K.Desk.faults (Plant r cid.now bytes.now) result world.old world.new }
{
    plant_at(&mut world.seats[r as usize], alloc, r, cid, bytes)
}

/// Sets the link of two replicas up or down.
pub fn link_in<K: Keeper>(
    world: &mut World<K>,
    r: u64,
    other: u64,
    up: bool,
) -> Result<Reply, ActError>
    requires there { is_there (state K.Keeper K.Desk.faults world.old) (LinkOf r other up) ≡ true }
    ensures acts { ActsOn K.Keeper K.Desk.faults (LinkOf r other up) result world.old world.new }
{
    match set_link(&mut world.down, r, other, up) {
        Ok(()) => Ok(Reply::Done),
        Err(AllocError) => Err(ActError::Memory),
    }
}

/// Stops a replica.
pub fn stop_in<K: Keeper>(world: &mut World<K>, r: u64) -> Result<Reply, ActError>
    requires there { r < vec_len world.old.seats }
    ensures acts { ActsOn K.Keeper K.Desk.faults (Stop r) result world.old world.new }
{
    let seat = take_at(&mut world.seats, r as usize);
    let (seat, reply) = stop_at(seat, r);
    put_at(&mut world.seats, r as usize, seat);
    Ok(reply)
}

/// Opens a replica.
pub fn open_in<K: Keeper>(world: &mut World<K>, alloc: Global, r: u64) -> Result<Reply, ActError>
    requires there { r < vec_len world.old.seats }
    ensures acts { ActsOn K.Keeper K.Desk.faults (Open r) result world.old world.new }
{
    let seat = take_at(&mut world.seats, r as usize);
    let (seat, reply) = open_at(seat, alloc, r);
    put_at(&mut world.seats, r as usize, seat);
    Ok(reply)
}

/// Arms the fuse of a replica's keeper for the commit with this number from now on.
pub fn arm_in<K: Keeper>(
    world: &mut World<Fused<K>>,
    r: u64,
    commit: u64,
    after: bool,
) -> Result<Reply, ActError>
    requires there { r < vec_len world.old.seats }
    requires from_one { 1 ≤ commit }
    ensures acts { ActsOn ⟦<Fused<K> as Keeper>⟧ K.Desk.faults (arming r commit after) result world.old world.new }
{
    arm_at(&mut world.seats[r as usize], commit, after);
    Ok(Reply::Done)
}

// Arms the fuse of a keeper in its seat.
fn arm_at<K: Keeper>(seat: &mut Seat<Fused<K>>, commit: u64, after: bool)
    requires from_one { 1 ≤ commit }
    ensures place { place ⟦<Fused<K> as Keeper>⟧ seat.new ≡ armed commit after (place ⟦<Fused<K> as Keeper>⟧ seat.old) }
    ensures goes { KeeperGoes ⟦<Fused<K> as Keeper>⟧ 0 1 (keeper_of seat.old) (keeper_of seat.new) }
    ensures acts { (r : ℕ) →
        SeatActs ⟦<Fused<K> as Keeper>⟧ (arming r commit after) (Ok Reply.Done) seat.old seat.new }
{
    arm_held(&mut seat.held, commit, after);
}

// The same of what is held there: the keeper with its fuse armed, and what runs as it was.
fn arm_held<K: Keeper>(held: &mut Held<Fused<K>>, commit: u64, after: bool)
    requires from_one { 1 ≤ commit }
    ensures keeper { keeper_in held.new ≡
        record (keeper_in held.old) { fuse = Some (record { commit = commit; after = after }) } }
    ensures run { run_in held.new ≡ run_in held.old }
{
    match held {
        Held::Up(replica) => replica.arm(commit, after),
        Held::Down(idle) => arm_idle(idle, commit, after),
    }
}

// The same of a keeper at rest.
fn arm_idle<K: Keeper>(idle: &mut Idle<Fused<K>>, commit: u64, after: bool)
    requires from_one { 1 ≤ commit }
    ensures { idle.new.keeper ≡ record idle.old.keeper { fuse = Some (record { commit = commit; after = after }) } }
{
    idle.keeper.arm(commit, after);
}
