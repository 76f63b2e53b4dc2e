// A run of a generated script, of which a summary is written.
ghost use Rattle.std.specs.Prelude.{◌≡◌, ◌≢◌, ◌≤◌, ℕ, List, [], true};
ghost use Rattle.std.specs.Io.KnownBytes.{Keeps};
ghost use Rattle.mc_base.specs.Causes.{Counts, Rose};
ghost use Rattle.mc_gen.specs.Script.{script_text};
ghost use Rattle.mc_gen.specs.Summary.{Sums, summary_text};
ghost use Rattle.mc_keepers.specs.declared.keepers.KeeperPlan.TheVariants.{Memory as InMemory};
ghost use Rattle.mc_app.specs.Generating.{EndsSummary, Generates};
ghost use Rattle.mc_seats.specs.Keepers.{DesksStay, armed_in, counted_in, is_calm};
ghost use Rattle.mc_app.specs.Keeping.{AreOwnParts, EndsParts, HaveAll, desks_of};
ghost use Rattle.mc_app.specs.LineWords.{MayEnd};
ghost use Rattle.mc_seats.specs.Openings.{AreFresh, are_calm, counted_of, owns_of, starts_of};
ghost use Rattle.mc_app.specs.Outcome.{AreOwnDesks, CountsKeepers, EndsAt, HandsBack, TakesSome, contents_of};
ghost use Rattle.mc_app.specs.Outcome.{starts_from};
ghost use Rattle.mc_runs.specs.Runs.{MayAnswer};
ghost use Rattle.mc_seats.specs.Words.{state, tally};
ghost use Rattle.mc_seats.specs.Starts.{IsFirst};

use crate::Status;
use crate::keeping::{give_back, make_parts};
use crate::refuse::refuse;
use crate::running::{close, status_of};
use crate::summing::{Summed, sum_script};
use crate::write::write_text;
use mc_base::{Bytes, List, Sink};
use mc_gen::{Summary, script};
use mc_keep::{Fused, Keeper};
use mc_keepers::{KeeperPlan, Keepers};
use mc_worker::Gate;
use mc_world::{NoWorld, Part, World};
use std::alloc::Global;
use std::sync::Wait;
use std::thread::Threads;

// The replicas of a generated script.
const REPLICAS: u64 = 3;

/// Runs the script that is generated from a start and a count over the keepers of three replicas in memory, and writes
/// the summary of its output, or `bad line N` alone where a line of it is bad. Nothing else is written.
pub(crate) fn generate<O: Sink, K: Keepers, G: Gate + Sync, T: Threads + Sync, W: Wait + Sync>(
    alloc: Global,
    start: u64,
    count: u64,
    out: &mut O,
    keepers: &mut K,
    gate: &G,
    threads: &T,
    wait: &W,
) -> Status
where
    K::K: Send + Sync,
    <K::K as Keeper>::Desk: Send,
    requires { count ≤ 100000 }
    ensures no_usage { result ≢ Status.Usage }
    ensures no_read { result ≢ Status.ReadFault }
    ensures untouched_keepers { result ≡ Status.KeeperFault → TakesSome K.makes K.takes K.K.told
        (AreOwnDesks K.K.schedule K.K.desk_schedule) InMemory keepers.old
        (starts_from (K.starts keepers.old InMemory) 0 3) keepers.new }
    ensures handed_back { HandsBack K.makes K.takes K.K.told (AreOwnDesks K.K.schedule K.K.desk_schedule) InMemory
        keepers.old (starts_from (K.starts keepers.old InMemory) 0 3) keepers.new }
    ensures generated { Generates (script_text start count)
        (IsFirst (starts_from (K.starts keepers.old InMemory) 0 3))
        (MayAnswer (K.quiet keepers.old InMemory ≡ true) (K.lost keepers.old) (K.lost keepers.new))
        (EndsAt K.makes K.takes K.K.told (AreOwnDesks K.K.schedule K.K.desk_schedule) InMemory keepers.old result
        (starts_from (K.starts keepers.old InMemory) 0 3) keepers.new)
        result count (O.written out.old) (O.written out.new) }
    ensures write_cause { Counts (O.faults out.old) (O.faults out.new) (result ≡ Status.WriteFault) }
    ensures keepers { CountsKeepers result (K.quiet keepers.old InMemory)
        (K.faults keepers.old) (K.faults keepers.new) (K.lost keepers.old) (K.lost keepers.new) }
{
    let Ok(text) = script(alloc, start, count) else {
        return Status::Memory;
    };
    let parts = match make_parts(alloc, keepers, &KeeperPlan::Memory, REPLICAS) {
        Ok(parts) => parts,
        Err(cause) => return status_of(cause),
    };
    let (status, parts) = generate_in(alloc, text, count, out, parts, gate, threads, wait);
    give_back(keepers, parts);
    status
}

// Opens the world of some keepers, runs the script in it, and hands the keepers back.
fn generate_in<O: Sink, K: Keeper + Send + Sync, G: Gate + Sync, T: Threads + Sync, W: Wait + Sync>(
    alloc: Global,
    text: Bytes,
    count: u64,
    out: &mut O,
    parts: List<Part<Fused<K>>>,
    gate: &G,
    threads: &T,
    wait: &W,
) -> (Status, List<Part<Fused<K>>>)
where
    K::Desk: Send,
    requires fresh { AreFresh ⟦<Fused<K> as Keeper>⟧.told ⟦<Fused<K> as Keeper>⟧.fuse parts }
    requires counted { owns_of ⟦<Fused<K> as Keeper>⟧ parts ≡ 0 }
    requires count { count ≤ 100000 }
    ensures no_usage { result.0 ≢ Status.Usage }
    ensures no_read { result.0 ≢ Status.ReadFault }
    ensures generated { Generates text (IsFirst (starts_of ⟦<Fused<K> as Keeper>⟧.told parts))
        (MayAnswer (are_calm ⟦<Fused<K> as Keeper>⟧ parts ≡ true) 0
        (counted_of ⟦<Fused<K> as Keeper>⟧ K.Desk.faults result.1))
        (EndsParts ⟦<Fused<K> as Keeper>⟧.told result.0 (starts_of ⟦<Fused<K> as Keeper>⟧.told parts) result.1)
        result.0 count (O.written out.old) (O.written out.new) }
    ensures own { AreOwnParts ⟦<Fused<K> as Keeper>⟧ parts result.1 }
    ensures same { result.0 ≡ Status.KeeperFault →
        starts_of ⟦<Fused<K> as Keeper>⟧.told result.1 ≡ starts_of ⟦<Fused<K> as Keeper>⟧.told parts }
    ensures write_cause { Counts (O.faults out.old) (O.faults out.new) (result.0 ≡ Status.WriteFault) }
    ensures keeper_cause { result.0 ≡ Status.KeeperFault →
        Rose 0 (counted_of ⟦<Fused<K> as Keeper>⟧ K.Desk.faults result.1) }
    ensures calm_opens { are_calm ⟦<Fused<K> as Keeper>⟧ parts ≡ true → result.0 ≢ Status.KeeperFault }
{
    match World::new(alloc, parts) {
        Ok(world) => generate_world(alloc, text, count, out, world, gate, threads, wait),
        Err(refused) => {
            let NoWorld { cause, parts } = refused;
            (status_of(cause), parts)
        }
    }
}

// Runs the script in a world of which nothing has failed, and ends it.
fn generate_world<
    O: Sink,
    K: Keeper + Send + Sync,
    G: Gate + Sync,
    T: Threads + Sync,
    W: Wait + Sync,
>(
    alloc: Global,
    text: Bytes,
    count: u64,
    out: &mut O,
    world: World<Fused<K>>,
    gate: &G,
    threads: &T,
    wait: &W,
) -> (Status, List<Part<Fused<K>>>)
where
    K::Desk: Send,
    requires entries { world.entries ≡ [] }
    requires counted { counted_in ⟦<Fused<K> as Keeper>⟧ K.Desk.faults world ≡ 0 }
    requires unarmed { armed_in ⟦<Fused<K> as Keeper>⟧ world.seats.items ≡ 0 }
    requires count { count ≤ 100000 }
    ensures no_usage { result.0 ≢ Status.Usage }
    ensures no_read { result.0 ≢ Status.ReadFault }
    ensures no_keeper { result.0 ≢ Status.KeeperFault }
    ensures generated { Generates text (λ w. w ≡ state ⟦<Fused<K> as Keeper>⟧ K.Desk.faults world)
        (MayAnswer (is_calm ⟦<Fused<K> as Keeper>⟧ K.Desk.faults world ≡ true) 0
        (counted_of ⟦<Fused<K> as Keeper>⟧ K.Desk.faults result.1))
        (λ w. contents_of w ≡ starts_of ⟦<Fused<K> as Keeper>⟧.told result.1)
        result.0 count (O.written out.old) (O.written out.new) }
    ensures full { HaveAll result.1 }
    ensures desks { DesksStay ⟦<Fused<K> as Keeper>⟧ K.Desk.faults world.desks.items (desks_of result.1) }
    ensures write_cause { Counts (O.faults out.old) (O.faults out.new) (result.0 ≡ Status.WriteFault) }
{
    let mut world = world;
    let status = sum_and_say(alloc, text, count, out, &mut world, gate, threads, wait);
    (status, close(world))
}

// Runs the script in a world whose record is empty, and writes what is said of its output.
fn sum_and_say<O: Sink, K: Keeper + Send + Sync, G: Gate + Sync, T: Threads + Sync, W: Wait + Sync>(
    alloc: Global,
    text: Bytes,
    count: u64,
    out: &mut O,
    world: &mut World<Fused<K>>,
    gate: &G,
    threads: &T,
    wait: &W,
) -> Status
where
    K::Desk: Send,
    requires entries { world.old.entries ≡ [] }
    requires count { count ≤ 100000 }
    ensures no_usage { result ≢ Status.Usage }
    ensures no_read { result ≢ Status.ReadFault }
    ensures no_keeper { result ≢ Status.KeeperFault }
    ensures generated { Generates text (λ w. w ≡ state ⟦<Fused<K> as Keeper>⟧ K.Desk.faults world.old)
        (MayEnd (tally ⟦<Fused<K> as Keeper>⟧ K.Desk.faults world.old)
        (counted_in ⟦<Fused<K> as Keeper>⟧ K.Desk.faults world.new))
        (λ w. w ≡ state ⟦<Fused<K> as Keeper>⟧ K.Desk.faults world.new)
        result count (O.written out.old) (O.written out.new) }
    ensures desks { DesksStay ⟦<Fused<K> as Keeper>⟧ K.Desk.faults world.old.desks.items world.new.desks.items }
    ensures write_cause { Counts (O.faults out.old) (O.faults out.new) (result ≡ Status.WriteFault) }
{
    let mut summary = Summary::new(alloc, count);
    match sum_script(alloc, text, world, &mut summary, gate, threads, wait) {
        Summed::Whole => say(alloc, summary, out),
        Summed::Bad { line } => refuse(alloc, line, out),
        Summed::Short => Status::Memory,
    }
}

// Writes a summary, and gives the status that the run ends with.
fn say<O: Sink>(alloc: Global, summary: Summary, out: &mut O) -> Status
    ensures no_usage { result ≢ Status.Usage }
    ensures no_read { result ≢ Status.ReadFault }
    ensures no_keeper { result ≢ Status.KeeperFault }
    ensures says { (count : ℕ) (replies : List (List ℕ)) → Sums count summary replies →
        EndsSummary result (summary_text count replies) (O.written out.old) (O.written out.new) }
    ensures write_cause { Counts (O.faults out.old) (O.faults out.new) (result ≡ Status.WriteFault) }
{
    let Ok(text) = summary.text(alloc) else {
        return Status::Memory;
    };
    match write_text(out, text.as_slice()) {
        Ok(()) => Status::Done,
        Err(_) => Status::WriteFault,
    }
}
