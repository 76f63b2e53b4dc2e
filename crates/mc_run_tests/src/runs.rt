// What the tests of whole runs share: a source, a gate, and a run over keepers in memory. All of them call `run` at these
// types, since each further one would be proved anew.
ghost use Rattle.std.specs.Prelude.{◌≡◌, None, false};
ghost use Rattle.std.specs.Io.{ReadsAtMost};

use mc_app::{Status, run};
use mc_base::{Bytes, Counted, Failed, List, MemorySink, MemorySource, RepeatingSource, Source};
use mc_keep::Keeper;
use mc_keep_mem::MemKeepers;
use mc_keepers::Keepers;
use mc_worker::Gate;
use std::alloc::Global;
use std::mem::forget;
use std::sync::Wait;
use std::sync::atomic::AtomicU64;
use std::sync::atomic::Ordering::SeqCst;
use std::test::Fail;
use std::thread::Threads;

/// The bytes that a stream moves a call, 0 for no limit, and the call that fails, 0 for none.
#[derive(Clone, Copy)]
pub(crate) struct Pieces {
    pub(crate) piece: usize,
    pub(crate) failing: u64,
}

/// All at once, and no call fails.
pub(crate) const WHOLE: Pieces = Pieces {
    piece: 0,
    failing: 0,
};

/// A script in memory, or bytes without an end. It tells nothing of them.
#[derive(Drop)]
pub(crate) struct Given {
    held: MemorySource,
    endless: Option<RepeatingSource>,
    faults: u64,
}

impl Given {
    /// A script that is read so.
    pub(crate) fn script(alloc: Global, script: &[u8], reads: Pieces) -> Result<Given, Fail> {
        let bytes = Bytes::from_slice(alloc, script)?;
        Ok(Given {
            held: MemorySource::new(bytes, reads.piece, failing(alloc, reads)?),
            endless: None,
            faults: 0,
        })
    }

    /// These bytes again and again.
    pub(crate) fn endless(alloc: Global, bytes: &[u8]) -> Result<Given, Fail> {
        let held = MemorySource::new(Bytes::new(alloc), 0, List::new(alloc));
        let endless = RepeatingSource::new(Bytes::from_slice(alloc, bytes)?);
        Ok(Given {
            held,
            endless,
            faults: 0,
        })
    }

    fn read_some(&mut self, into: &mut [u8]) -> Result<usize, Failed>
        ensures bound { ReadsAtMost result into.new }
        ensures faults { self.new.faults ≡ self.old.faults }
    {
        match &mut self.endless {
            Some(source) => source.read(into),
            None => self.held.read(into),
        }
    }
}

impl Counted for Given {
    ghost faults = { λ given. given.faults };

    fn faults(&self) -> u64 {
        self.faults
    }
}

impl Source for Given {
    ghost left = { λ _. None };

    ghost endless = { λ _. false };

    fn read(&mut self, into: &mut [u8]) -> Result<usize, Failed> {
        match self.read_some(into) {
            Ok(count) => Ok(count),
            Err(_) => {
                self.faults = self.faults.saturating_add(1);
                Err(Failed)
            }
        }
    }
}

/// A gate at which whoever comes first is held until another has come, for at most so many turns, where it `holds`.
#[derive(Drop)]
pub(crate) struct Meeting {
    pub(crate) holds: bool,
    pub(crate) come: AtomicU64,
    pub(crate) alone: AtomicU64,
}

const TURNS: u64 = 300_000_000;

impl Meeting {
    /// A gate by which nobody has come.
    pub(crate) fn new(holds: bool) -> Meeting {
        Meeting {
            holds,
            come: AtomicU64::new(0),
            alone: AtomicU64::new(0),
        }
    }
}

impl Gate for Meeting {
    fn pass<W: Wait>(&self, _worker: u64, _turn: u64, _wait: &W) {
        if self.come.fetch_add(1, SeqCst) > 0 || !self.holds {
            return;
        }
        for _ in 0..TURNS {
            if self.come.load(SeqCst) > 1 {
                return;
            }
        }
        self.alone.store(1, SeqCst);
    }
}

/// How a run ended, what it wrote, and how often its keepers failed, by themselves and when they were made or taken back.
pub(crate) type Ran = (Status, MemorySink, u64, u64);

fn failing(alloc: Global, plan: Pieces) -> Result<List<u64>, Fail> {
    Ok(List::from_vec([plan.failing].to_vec(alloc)?))
}

fn words_of(alloc: Global, texts: &[&str]) -> Result<Vec<String>, Fail> {
    let mut words = Vec::new(alloc);
    for text in texts {
        words.push(String::from_str(alloc, text)?)?;
    }
    Ok(words)
}

/// Runs these words over any keepers.
pub(crate) fn run_with<K: Keepers, W: Threads + Wait + Sync>(
    alloc: Global,
    words: &[&str],
    script: Given,
    writes: Pieces,
    keepers: &mut K,
    gate: &Meeting,
    wait: &W,
) -> Result<Ran, Fail>
where
    K::K: Send + Sync,
    <K::K as Keeper>::Desk: Send,
{
    let words = words_of(alloc, words)?;
    let mut script = script;
    let mut out = MemorySink::new(Bytes::new(alloc), writes.piece, failing(alloc, writes)?);
    let status = run(
        alloc,
        words.as_slice(),
        &mut script,
        &mut out,
        keepers,
        gate,
        wait,
        wait,
    );
    Ok((status, out, keepers.faults(), keepers.lost()))
}

/// The same over keepers in memory, past a gate.
pub(crate) fn run_past<W: Threads + Wait + Sync>(
    alloc: Global,
    words: &[&str],
    script: Given,
    writes: Pieces,
    keepers: MemKeepers,
    gate: &Meeting,
    wait: &W,
) -> Result<Ran, Fail> {
    let mut keepers = keepers;
    let ran = run_with(alloc, words, script, writes, &mut keepers, gate, wait);
    forget(keepers);
    ran
}

/// Keepers in memory that never fail.
pub(crate) fn sound(alloc: Global) -> MemKeepers {
    MemKeepers::new(List::new(alloc), List::new(alloc))
}

/// Runs the words `run` over keepers in memory.
pub(crate) fn run_over<W: Threads + Wait + Sync>(
    alloc: Global,
    script: Given,
    writes: Pieces,
    keepers: MemKeepers,
    wait: &W,
) -> Result<Ran, Fail> {
    let gate = Meeting::new(false);
    run_past(alloc, &["run"], script, writes, keepers, &gate, wait)
}

/// Whether a script is answered so over these keepers, which fail so often.
pub(crate) fn is_answered<W: Threads + Wait + Sync>(
    alloc: Global,
    script: &[u8],
    keepers: MemKeepers,
    wanted: (Status, &[u8], u64, u64),
    wait: &W,
) -> Result<bool, Fail> {
    let script = Given::script(alloc, script, WHOLE)?;
    let (status, out, faults, lost) = run_over(alloc, script, WHOLE, keepers, wait)?;
    Ok((status, out.bytes(), faults, lost) == wanted)
}
