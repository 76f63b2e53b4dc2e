// One command in a world.
ghost use Rattle.std.specs.Prelude.{◌≡◌, true, false, IfOk, IsErrOf};
ghost use Rattle.std.specs.Prelude.{cond};
ghost use Rattle.mc_script.specs.Limits.{IsInLimits};
ghost use Rattle.mc_seats.specs.Arming.{is_arming};
ghost use Rattle.mc_seats.specs.Asks.{arms, is_there};
ghost use Rattle.mc_seats.specs.Keepers.{WorldGoes};
ghost use Rattle.mc_seats.specs.Step.{answers_fault};
ghost use Rattle.mc_seats.specs.declared.error.ActError.{ActError};
ghost use Rattle.mc_seats.specs.Pasts.{PastsFit};
ghost use Rattle.mc_seats.specs.Words.{ActsOn, Records, Shortens, state};

use crate::pulling::{repair_in, work_in};
use crate::storming::storm_in;
use mc_acts::{
    arm_in, call_in, cast_in, counts_of, export_in, hear_in, import_in, is_there, link_in, load_in,
    open_in, plant_in, record_line, same_in, send_in, state_in, step_in, stop_in,
};
use mc_keep::{Fused, Keeper};
use mc_past::Past;
use mc_script::{Command, Reply};
use mc_seats::{ActError, World, forget};
use mc_worker::Gate;
use std::alloc::{AllocError, Global};
use std::sync::Wait;
use std::thread::Threads;

/// Executes one command, whose numbers are within the limits of its line. The world and the reply are by `Step`, and
/// the record grows by one entry, which names exactly the keepers and desks whose counts rose; where all keepers and
/// desks are quiet and have not failed, it names none that failed by itself. `BadLine` comes exactly where the command
/// names a replica, a message or a file that isn't there, and changes nothing. After `Memory` the record is as it was,
/// and the command is done, or its replica is what a want of memory in the call leaves: as it was, after some first
/// blocks of a delete, with the blocks of a file stored and no root of it heard, with the first block that waited at
/// the back of those that wait, after some blocks of a work or a repair, with nothing in flight, or after some first
/// calls of a storm's writers. What a work or a repair comes to depends on no number of workers, and on no gate. The
/// workers, each of which passes the gate with each block that it has taken, and the writers of a storm run in these
/// threads. Each fault that is answered is paid by a count that rose, or by a fuse that is armed no more. What is read
/// of a replica's past is kept in `pasts`, where the next such read goes on, until it stops or is opened.
pub fn act<K: Keeper + Send + Sync, G: Gate + Sync, T: Threads + Sync, W: Wait + Sync>(
    world: &mut World<Fused<K>>,
    pasts: &mut [Past],
    alloc: Global,
    command: &Command,
    gate: &G,
    threads: &T,
    wait: &W,
) -> Result<Reply, ActError>
where
    K::Desk: Send,
    requires limits { IsInLimits command.now }
    requires fits { PastsFit (state ⟦<Fused<K> as Keeper>⟧ K.Desk.faults world.old) pasts.old }
    ensures line { IfOk result (Records ⟦<Fused<K> as Keeper>⟧ K.Desk.faults command.now world.old world.new) }
    ensures bad { IsErrOf result ActError.BadLine →
        (is_there (state ⟦<Fused<K> as Keeper>⟧ K.Desk.faults world.old) command.now ≡ false)
        × (world.new ≡ world.old) }
    ensures short { IsErrOf result ActError.Memory →
        Shortens ⟦<Fused<K> as Keeper>⟧ K.Desk.faults command.now world.old world.new }
    ensures goes { WorldGoes ⟦<Fused<K> as Keeper>⟧ K.Desk.faults (cond (answers_fault result) 1 0)
        (arms command.now) world.old world.new }
    ensures fits { PastsFit (state ⟦<Fused<K> as Keeper>⟧ K.Desk.faults world.old) pasts.new }
{
    if !is_there(world, command) {
        return Err(ActError::BadLine);
    }
    let before = counts_of(world, alloc)?;
    let reply = act_on(world, pasts, alloc, command, gate, threads, wait)?;
    match record_line(world, alloc, &before) {
        Ok(()) => Ok(reply),
        Err(AllocError) => Err(ActError::Memory),
    }
}

// A command that names only what is there.
fn act_on<K: Keeper + Send + Sync, G: Gate + Sync, T: Threads + Sync, W: Wait + Sync>(
    world: &mut World<Fused<K>>,
    pasts: &mut [Past],
    alloc: Global,
    command: &Command,
    gate: &G,
    threads: &T,
    wait: &W,
) -> Result<Reply, ActError>
where
    K::Desk: Send,
    requires limits { IsInLimits command.now }
    requires there { is_there (state ⟦<Fused<K> as Keeper>⟧ K.Desk.faults world.old) command.now ≡ true }
    requires fits { PastsFit (state ⟦<Fused<K> as Keeper>⟧ K.Desk.faults world.old) pasts.old }
    ensures acts { ActsOn ⟦<Fused<K> as Keeper>⟧ K.Desk.faults command.now result world.old world.new }
    ensures fits { PastsFit (state ⟦<Fused<K> as Keeper>⟧ K.Desk.faults world.old) pasts.new }
{
    match command {
        Command::StopAt { r, commit } => arm_in(world, *r, *commit, false),
        Command::StopAfter { r, commit } => arm_in(world, *r, *commit, true),
        _ => act_over(world, pasts, alloc, command, gate, threads, wait),
    }
}

// The same of one that arms no fuse, over every keeper.
fn act_over<K: Keeper + Send + Sync, G: Gate + Sync, T: Threads + Sync, W: Wait + Sync>(
    world: &mut World<K>,
    pasts: &mut [Past],
    alloc: Global,
    command: &Command,
    gate: &G,
    threads: &T,
    wait: &W,
) -> Result<Reply, ActError>
where
    K::Desk: Send,
    requires limits { IsInLimits command.now }
    requires there { is_there (state K.Keeper K.Desk.faults world.old) command.now ≡ true }
    requires plain { is_arming command.now ≡ false }
    requires fits { PastsFit (state K.Keeper K.Desk.faults world.old) pasts.old }
    ensures acts { ActsOn K.Keeper K.Desk.faults command.now result world.old world.new }
    ensures fits { PastsFit (state K.Keeper K.Desk.faults world.old) pasts.new }
{
    match command {
        Command::Cast { r } => cast_in(world, alloc, *r),
        Command::Wire { bytes } => send_in(world, alloc, bytes.as_slice()),
        Command::Hear { r, message } => hear_in(world, alloc, *r, *message),
        Command::Export { r } => export_in(world, alloc, *r),
        Command::CarIn { bytes } => load_in(world, alloc, bytes.as_slice()),
        Command::Import { r, car } => import_in(world, alloc, *r, *car),
        Command::Plant { r, cid, bytes } => plant_in(world, alloc, *r, cid, bytes.as_slice()),
        Command::Link { r, other, up } => link_in(world, *r, *other, *up),
        Command::Step { r } => step_in(world, alloc, *r, wait),
        Command::Work { r, workers, budget } => work_in(
            world, alloc, *r, *workers, *budget, gate, threads, wait,
        ),
        Command::Repair { r, workers } => {
            repair_in(world, alloc, *r, *workers, gate, threads, wait)
        }
        Command::Storm { r, writers, writes } => storm_in(
            world, alloc, *r, *writers, *writes, threads, wait,
        ),
        Command::Same { r, other } => same_in(world, *r, *other),
        Command::Stop { r } => {
            forget(pasts, alloc, *r);
            stop_in(world, *r)
        }
        Command::Open { r } => {
            forget(pasts, alloc, *r);
            open_in(world, alloc, *r)
        }
        Command::State { r } => state_in(world, *r),
        Command::StopAt { .. } | Command::StopAfter { .. } => unreachable!(),
        _ => call_in(world, pasts, alloc, command),
    }
}
