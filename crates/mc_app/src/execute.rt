// A line, its command, and the way of its reply into the sink.
ghost use Rattle.std.specs.Prelude.{◌≡◌, [], OnOk, IfOk, IsErrOf, Some, false};
ghost use Rattle.std.specs.Io.KnownBytes.{Appends, Keeps};
ghost use Rattle.mc_base.specs.Causes.{Counts};
ghost use Rattle.mc_base.specs.Told.{AppendsPart};
ghost use Rattle.mc_script.specs.Limits.{IsInLimits};
ghost use Rattle.mc_script.specs.Line.{line_of};
ghost use Rattle.mc_script.specs.ReplyText.{reply_text};
ghost use Rattle.mc_seats.specs.Asks.{is_there};
ghost use Rattle.mc_seats.specs.Keepers.{DesksStay};
ghost use Rattle.mc_app.specs.LineWords.{
  AnswersIn,
  AreKept,
  CutsShortIn,
  ExecutesIn,
  ExecutesPartIn,
  LineShortIn,
  SameWorld,
};
ghost use Rattle.mc_app.specs.Progress.{IsBadCommand};
ghost use Rattle.mc_seats.specs.Pasts.{PastsFit};
ghost use Rattle.mc_seats.specs.Record.{IsLonger};
ghost use Rattle.mc_seats.specs.Words.{state};
ghost use Rattle.mc_app.specs.declared.execute.ExecuteError.TheVariants.{Failed as WriteFailed, Memory};

use crate::write::write_text;
use mc_base::{Bytes, Failed, List, Sink};
use mc_keep::{Fused, Keeper};
use mc_model::kept_is_durable;
use mc_past::{Past, pasts_stay_fit};
use mc_runs::runs_only_grow;
use mc_script::{Command, LineError, Reply, read_line, write_reply};
use mc_worker::Gate;
use mc_world::{ActError, LineEntry, World, act, new_pasts};
use std::alloc::{AllocError, Global};
use std::mem::replace;
use std::sync::Wait;
use std::thread::Threads;
use thiserror::Error;

/// Why a line was not executed, or its reply not written.
#[derive(Clone, Copy, Debug, PartialEq, Eq, Error)]
pub enum ExecuteError {
    /// The line is no command.
    #[error("no command")]
    Bad,
    /// The sink failed.
    #[error("the sink failed")]
    Failed,
    /// There was no memory for the command or its reply.
    #[error("out of memory")]
    Memory,
}

impl From<Failed> for ExecuteError {
    ghost from_gives = { λ _ e. e ≡ WriteFailed };

    fn from(_: Failed) -> Self {
        ExecuteError::Failed
    }
}

impl From<AllocError> for ExecuteError {
    ghost from_gives = { λ _ e. e ≡ Memory };

    fn from(_: AllocError) -> Self {
        ExecuteError::Memory
    }
}

/// What is carried from line to line: the buffer in which the text of a reply is made, and what was read of the past of
/// each replica.
#[derive(Drop)]
pub struct Carried {
    /// The buffer.
    pub text: Bytes,
    /// What was read of each past, in order of the replicas' names.
    pub pasts: Vec<Past>,
}

impl Carried {
    /// An empty buffer, and nothing of the past of a world's replicas.
    pub fn new<K: Keeper>(alloc: Global, world: &World<K>) -> Result<Carried, AllocError>
        ensures { IfOk result (λ carried. PastsFit (state K.Keeper K.Desk.faults world.now) carried.pasts.items) }
    {
        let pasts = new_pasts(world, alloc)?;
        let text = Bytes::new(alloc);
        Ok(Carried { text, pasts })
    }
}

/// Executes a line, and writes its reply, whose text is made in the buffer that is carried. `Bad` comes exactly where
/// the line is no command, or names a replica, a message or a file that isn't there, and then nothing is written or
/// changes. `Failed` comes only where the sink failed, and then some first bytes of the reply are written. Under `Memory`
/// nothing is written, and the command was done, or nothing or a part of it.
pub fn execute_line<
    K: Keeper + Send + Sync,
    O: Sink,
    G: Gate + Sync,
    T: Threads + Sync,
    W: Wait + Sync,
>(
    alloc: Global,
    world: &mut World<Fused<K>>,
    line: &[u8],
    carried: &mut Carried,
    out: &mut O,
    gate: &G,
    threads: &T,
    wait: &W,
) -> Result<(), ExecuteError>
where
    K::Desk: Send,
    requires fits { PastsFit (state ⟦<Fused<K> as Keeper>⟧ K.Desk.faults world.old) carried.old.pasts.items }
    ensures ok { OnOk result (ExecutesIn ⟦<Fused<K> as Keeper>⟧ K.Desk.faults (line_of line.now) world.old world.new
        (O.written out.old) (O.written out.new)) }
    ensures bad { IsErrOf result ExecuteError.Bad →
        IsBadCommand (state ⟦<Fused<K> as Keeper>⟧ K.Desk.faults world.old) (line_of line.now)
        × Keeps (O.written out.old) (O.written out.new) × (world.new ≡ world.old) }
    ensures failed { IsErrOf result ExecuteError.Failed → ExecutesPartIn ⟦<Fused<K> as Keeper>⟧ K.Desk.faults
        (line_of line.now) world.old world.new (O.written out.old) (O.written out.new) }
    ensures memory { IsErrOf result ExecuteError.Memory → Keeps (O.written out.old) (O.written out.new) }
    ensures short { IsErrOf result ExecuteError.Memory →
        LineShortIn ⟦<Fused<K> as Keeper>⟧ K.Desk.faults (line_of line.now) world.old world.new }
    ensures desks { DesksStay ⟦<Fused<K> as Keeper>⟧ K.Desk.faults world.old.desks.items world.new.desks.items }
    ensures entries { IsLonger world.old.entries world.new.entries }
    ensures cause { Counts (O.faults out.old) (O.faults out.new) (IsErrOf result ExecuteError.Failed) }
    ensures fits { OnOk result
        (PastsFit (state ⟦<Fused<K> as Keeper>⟧ K.Desk.faults world.new) carried.new.pasts.items) }
{
    match read_line(alloc, line) {
        Ok(Some(command)) => answer(alloc, world, &command, carried, out, gate, threads, wait),
        Ok(None) => Ok(()),
        Err(LineError::Bad) => Err(ExecuteError::Bad),
        Err(LineError::Memory) => Err(ExecuteError::Memory),
    }
}

/// Executes a line of a world whose record is empty, writes its reply as `execute_line` does, and empties the record.
pub fn execute_and_clear<
    K: Keeper + Send + Sync,
    O: Sink,
    G: Gate + Sync,
    T: Threads + Sync,
    W: Wait + Sync,
>(
    alloc: Global,
    world: &mut World<Fused<K>>,
    line: &[u8],
    carried: &mut Carried,
    out: &mut O,
    gate: &G,
    threads: &T,
    wait: &W,
) -> Result<(), ExecuteError>
where
    K::Desk: Send,
    requires entries { world.old.entries ≡ [] }
    requires fits { PastsFit (state ⟦<Fused<K> as Keeper>⟧ K.Desk.faults world.old) carried.old.pasts.items }
    ensures ok { OnOk result (ExecutesIn ⟦<Fused<K> as Keeper>⟧ K.Desk.faults (line_of line.now) world.old world.new
        (O.written out.old) (O.written out.new)) }
    ensures bad { IsErrOf result ExecuteError.Bad →
        IsBadCommand (state ⟦<Fused<K> as Keeper>⟧ K.Desk.faults world.old) (line_of line.now)
        × Keeps (O.written out.old) (O.written out.new)
        × SameWorld ⟦<Fused<K> as Keeper>⟧ K.Desk.faults world.old world.new }
    ensures failed { IsErrOf result ExecuteError.Failed → ExecutesPartIn ⟦<Fused<K> as Keeper>⟧ K.Desk.faults
        (line_of line.now) world.old world.new (O.written out.old) (O.written out.new) }
    ensures memory { IsErrOf result ExecuteError.Memory → Keeps (O.written out.old) (O.written out.new) }
    ensures short { IsErrOf result ExecuteError.Memory →
        LineShortIn ⟦<Fused<K> as Keeper>⟧ K.Desk.faults (line_of line.now) world.old world.new }
    ensures desks { DesksStay ⟦<Fused<K> as Keeper>⟧ K.Desk.faults world.old.desks.items world.new.desks.items }
    ensures entries { world.new.entries ≡ [] }
    ensures cause { Counts (O.faults out.old) (O.faults out.new) (IsErrOf result ExecuteError.Failed) }
    ensures fits { OnOk result
        (PastsFit (state ⟦<Fused<K> as Keeper>⟧ K.Desk.faults world.new) carried.new.pasts.items) }
{
    let result = execute_line(alloc, world, line, carried, out, gate, threads, wait);
    clear_record(alloc, &mut world.entries);
    result
}

// Empties a record.
fn clear_record(alloc: Global, entries: &mut List<LineEntry>)
    ensures { entries.new ≡ [] }
{
    let mut items = replace(entries, List::new(alloc)).into_vec();
    items.clear();
    *entries = List::from_vec(items);
}

// Does a command, and writes its reply.
fn answer<K: Keeper + Send + Sync, O: Sink, G: Gate + Sync, T: Threads + Sync, W: Wait + Sync>(
    alloc: Global,
    world: &mut World<Fused<K>>,
    command: &Command,
    carried: &mut Carried,
    out: &mut O,
    gate: &G,
    threads: &T,
    wait: &W,
) -> Result<(), ExecuteError>
where
    K::Desk: Send,
    requires limits { IsInLimits command.now }
    requires fits { PastsFit (state ⟦<Fused<K> as Keeper>⟧ K.Desk.faults world.old) carried.old.pasts.items }
    ensures ok { OnOk result (ExecutesIn ⟦<Fused<K> as Keeper>⟧ K.Desk.faults (Some (Some command.now))
        world.old world.new (O.written out.old) (O.written out.new)) }
    ensures bad { IsErrOf result ExecuteError.Bad →
        (is_there (state ⟦<Fused<K> as Keeper>⟧ K.Desk.faults world.old) command.now ≡ false)
        × Keeps (O.written out.old) (O.written out.new) × (world.new ≡ world.old) }
    ensures failed { IsErrOf result ExecuteError.Failed → ExecutesPartIn ⟦<Fused<K> as Keeper>⟧ K.Desk.faults
        (Some (Some command.now)) world.old world.new (O.written out.old) (O.written out.new) }
    ensures memory { IsErrOf result ExecuteError.Memory → Keeps (O.written out.old) (O.written out.new) }
    ensures short { IsErrOf result ExecuteError.Memory →
        CutsShortIn ⟦<Fused<K> as Keeper>⟧ K.Desk.faults command.now world.old world.new }
    ensures desks { DesksStay ⟦<Fused<K> as Keeper>⟧ K.Desk.faults world.old.desks.items world.new.desks.items }
    ensures entries { IsLonger world.old.entries world.new.entries }
    ensures cause { Counts (O.faults out.old) (O.faults out.new) (IsErrOf result ExecuteError.Failed) }
    ensures fits { OnOk result
        (PastsFit (state ⟦<Fused<K> as Keeper>⟧ K.Desk.faults world.new) carried.new.pasts.items) }
{
    let reply = match act_on(
        alloc,
        world,
        &mut carried.pasts,
        command,
        gate,
        threads,
        wait,
    ) {
        Ok(reply) => reply,
        Err(ActError::BadLine) => return Err(ExecuteError::Bad),
        Err(ActError::Memory) => return Err(ExecuteError::Memory),
    };
    write_answer(alloc, &reply, &mut carried.text, out)
}

// Writes a reply, whose text is made in a buffer.
fn write_answer<O: Sink>(
    alloc: Global,
    reply: &Reply,
    text: &mut Bytes,
    out: &mut O,
) -> Result<(), ExecuteError>
    ensures ok { OnOk result (Appends (O.written out.old) (O.written out.new) (reply_text reply.now)) }
    ensures not_bad { IsErrOf result ExecuteError.Bad → ⊥ }
    ensures failed { IsErrOf result ExecuteError.Failed →
        AppendsPart (O.written out.old) (O.written out.new) (reply_text reply.now) }
    ensures memory { IsErrOf result ExecuteError.Memory → Keeps (O.written out.old) (O.written out.new) }
    ensures cause { Counts (O.faults out.old) (O.faults out.new) (IsErrOf result ExecuteError.Failed) }
{
    text.clear();
    write_reply(alloc, reply, text)?;
    write_text(out, text.as_slice())?;
    Ok(())
}

// Does a command, in the words of a line.
fn act_on<K: Keeper + Send + Sync, G: Gate + Sync, T: Threads + Sync, W: Wait + Sync>(
    alloc: Global,
    world: &mut World<Fused<K>>,
    pasts: &mut Vec<Past>,
    command: &Command,
    gate: &G,
    threads: &T,
    wait: &W,
) -> Result<Reply, ActError>
where
    K::Desk: Send,
    requires limits { IsInLimits command.now }
    requires fits { PastsFit (state ⟦<Fused<K> as Keeper>⟧ K.Desk.faults world.old) pasts.old.items }
    ensures answered { IfOk result (AnswersIn ⟦<Fused<K> as Keeper>⟧ K.Desk.faults command.now world.old world.new) }
    ensures bad { IsErrOf result ActError.BadLine →
        (is_there (state ⟦<Fused<K> as Keeper>⟧ K.Desk.faults world.old) command.now ≡ false)
        × (world.new ≡ world.old) }
    ensures short { IsErrOf result ActError.Memory →
        CutsShortIn ⟦<Fused<K> as Keeper>⟧ K.Desk.faults command.now world.old world.new }
    ensures desks { DesksStay ⟦<Fused<K> as Keeper>⟧ K.Desk.faults world.old.desks.items world.new.desks.items }
    ensures entries { IsLonger world.old.entries world.new.entries }
    ensures fits { OnOk result (PastsFit (state ⟦<Fused<K> as Keeper>⟧ K.Desk.faults world.new) pasts.new.items) }
{
    is_sound(world);
    kept_is_durable();
    runs_only_grow();
    pasts_stay_fit();
    act(
        world,
        pasts.as_mut_slice(),
        alloc,
        command,
        gate,
        threads,
        wait,
    )
}

// What the keepers of a world tell is sound.
fn is_sound<K: Keeper>(world: &World<K>)
    ensures { AreKept (state K.Keeper K.Desk.faults world.now) }
{}
