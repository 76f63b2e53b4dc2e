// The replies to a generated script, summed up.
ghost use Rattle.std.specs.Prelude.{◌≡◌, ℕ, [], OnOk, IsErrOf};
ghost use Rattle.mc_gen.specs.Summary.{Sums};
ghost use Rattle.mc_script.specs.Line.{line_of};
ghost use Rattle.mc_seats.specs.Keepers.{DesksStay, counted_in};
ghost use Rattle.mc_app.specs.LineWords.{MayEnd, SameWorld};
ghost use Rattle.mc_app.specs.Progress.{IsBadCommand};
ghost use Rattle.mc_app.specs.Summing.{SumsLine, SumsShort, SumsUp};
ghost use Rattle.mc_seats.specs.Pasts.{PastsFit};
ghost use Rattle.mc_seats.specs.Words.{state, tally};

use crate::execute::{Carried, ExecuteError, execute_and_clear};
use crate::line_reader::{LineReader, ReadError};
use mc_base::{Bytes, List, MemorySink, MemorySource};
use mc_gen::Summary;
use mc_keep::{Fused, Keeper};
use mc_worker::Gate;
use mc_world::World;
use std::alloc::Global;
use std::sync::Wait;
use std::thread::Threads;

/// How far a script was summed up.
#[derive(Clone, Copy, Debug, PartialEq, Eq)]
pub enum Summed {
    /// Every line was answered.
    Whole,
    /// This line, counted from 1, is bad.
    Bad { line: u64 },
    /// There was no memory to go on.
    Short,
}

/// Runs a script in a world whose record is empty, as it is again before each line, and sums up the replies.
pub fn sum_script<K: Keeper + Send + Sync, G: Gate + Sync, T: Threads + Sync, W: Wait + Sync>(
    alloc: Global,
    script: Bytes,
    world: &mut World<Fused<K>>,
    summary: &mut Summary,
    gate: &G,
    threads: &T,
    wait: &W,
) -> Summed
where
    K::Desk: Send,
    requires entries { world.old.entries ≡ [] }
    ensures sums { (count : ℕ) → Sums count summary.old [] → SumsUp script
        (λ w. w ≡ state ⟦<Fused<K> as Keeper>⟧ K.Desk.faults world.old)
        (MayEnd (tally ⟦<Fused<K> as Keeper>⟧ K.Desk.faults world.old)
        (counted_in ⟦<Fused<K> as Keeper>⟧ K.Desk.faults world.new))
        (λ w. w ≡ state ⟦<Fused<K> as Keeper>⟧ K.Desk.faults world.new) result count summary.new }
    ensures desks { DesksStay ⟦<Fused<K> as Keeper>⟧ K.Desk.faults world.old.desks.items world.new.desks.items }
{
    let mut source = MemorySource::new(script, 0, List::new(alloc));
    let Ok(mut reader) = LineReader::new(alloc) else {
        return Summed::Short;
    };
    let Ok(mut carried) = Carried::new(alloc, world) else {
        return Summed::Short;
    };
    let mut executed: u64 = 0;
    loop {
        match reader.next_line(&mut source) {
            Ok(true) => {}
            Ok(false) => return Summed::Whole,
            Err(ReadError::TooLong) => return Summed::Bad { line: executed + 1 },
            // A source in memory of which no call is planned to fail does not fail.
            Err(ReadError::Failed) => return Summed::Short,
            Err(ReadError::Memory) => return Summed::Short,
        }
        match sum_line(
            alloc,
            world,
            reader.line(),
            &mut carried,
            summary,
            gate,
            threads,
            wait,
        ) {
            Ok(()) => executed += 1,
            Err(ExecuteError::Bad) => return Summed::Bad { line: executed + 1 },
            Err(ExecuteError::Failed) => return Summed::Short,
            Err(ExecuteError::Memory) => return Summed::Short,
        }
    }
}

// Executes a line, and takes its reply into the summary. The reply is held in memory, where only want of memory fails.
fn sum_line<K: Keeper + Send + Sync, G: Gate + Sync, T: Threads + Sync, W: Wait + Sync>(
    alloc: Global,
    world: &mut World<Fused<K>>,
    line: &[u8],
    carried: &mut Carried,
    summary: &mut Summary,
    gate: &G,
    threads: &T,
    wait: &W,
) -> Result<(), ExecuteError>
where
    K::Desk: Send,
    requires entries { world.old.entries ≡ [] }
    requires fits { PastsFit (state ⟦<Fused<K> as Keeper>⟧ K.Desk.faults world.old) carried.old.pasts.items }
    ensures ok { OnOk result (SumsLine (state ⟦<Fused<K> as Keeper>⟧ K.Desk.faults world.old)
        (tally ⟦<Fused<K> as Keeper>⟧ K.Desk.faults world.old) (line_of line.now)
        (state ⟦<Fused<K> as Keeper>⟧ K.Desk.faults world.new) (tally ⟦<Fused<K> as Keeper>⟧ K.Desk.faults world.new)
        summary.old summary.new) }
    ensures failed { IsErrOf result ExecuteError.Failed →
        SumsShort (state ⟦<Fused<K> as Keeper>⟧ K.Desk.faults world.old)
        (tally ⟦<Fused<K> as Keeper>⟧ K.Desk.faults world.old) (line_of line.now)
        (state ⟦<Fused<K> as Keeper>⟧ K.Desk.faults world.new)
        (tally ⟦<Fused<K> as Keeper>⟧ K.Desk.faults world.new) }
    ensures short { IsErrOf result ExecuteError.Memory →
        SumsShort (state ⟦<Fused<K> as Keeper>⟧ K.Desk.faults world.old)
        (tally ⟦<Fused<K> as Keeper>⟧ K.Desk.faults world.old) (line_of line.now)
        (state ⟦<Fused<K> as Keeper>⟧ K.Desk.faults world.new)
        (tally ⟦<Fused<K> as Keeper>⟧ K.Desk.faults world.new) }
    ensures bad { IsErrOf result ExecuteError.Bad →
        IsBadCommand (state ⟦<Fused<K> as Keeper>⟧ K.Desk.faults world.old) (line_of line.now)
        × SameWorld ⟦<Fused<K> as Keeper>⟧ K.Desk.faults world.old world.new }
    ensures desks { DesksStay ⟦<Fused<K> as Keeper>⟧ K.Desk.faults world.old.desks.items world.new.desks.items }
    ensures entries { world.new.entries ≡ [] }
    ensures fits { OnOk result
        (PastsFit (state ⟦<Fused<K> as Keeper>⟧ K.Desk.faults world.new) carried.new.pasts.items) }
{
    let mut reply = MemorySink::new(Bytes::new(alloc), 0, List::new(alloc));
    match execute_and_clear(alloc, world, line, carried, &mut reply, gate, threads, wait) {
        Ok(()) => {}
        Err(error) => return Err(error),
    }
    match summary.add(reply.bytes()) {
        Ok(()) => Ok(()),
        Err(_) => Err(ExecuteError::Memory),
    }
}
