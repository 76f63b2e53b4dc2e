// A script over keepers in SQLite, and over keepers in memory.
ghost use Rattle.std.specs.Prelude.{IfOk};
ghost use Rattle.mc_model.specs.State.{HasSoundMark};
ghost use Rattle.mc_keep_mem.specs.Fits.{kept_in};

use crate::worlds::{Played, play};
use mc_file_tests::in_memory;
use mc_keep::KeepError;
use mc_keep_mem::{FaultPlan, MemKeeper};
use std::alloc::Global;
use std::sync::Wait;
use std::test::Fail;
use std::thread::Threads;

/// A script over SQLite keepers in memory, after these statements over the tables of the first one.
pub(crate) fn over_sql<W: Threads + Wait + Sync>(
    alloc: Global,
    before: &str,
    script: &str,
    wait: &W,
) -> Result<Played, Fail> {
    play(
        alloc,
        in_memory(alloc, before),
        in_memory(alloc, ""),
        in_memory(alloc, ""),
        script,
        wait,
    )
}

/// A keeper in memory that never fails.
pub(crate) fn empty(alloc: Global) -> Result<MemKeeper, KeepError>
    ensures { IfOk result (λ keeper. HasSoundMark (kept_in keeper.store.tables)) }
{
    Ok(MemKeeper::new(alloc, FaultPlan::nothing(alloc))?)
}

/// A script over keepers in memory.
pub(crate) fn over_memory<W: Threads + Wait + Sync>(
    alloc: Global,
    script: &str,
    wait: &W,
) -> Result<Played, Fail> {
    play(
        alloc,
        empty(alloc),
        empty(alloc),
        empty(alloc),
        script,
        wait,
    )
}

/// Whether a script over SQLite keepers has the replies of those in memory, and leaves the same.
pub(crate) fn agree<W: Threads + Wait + Sync>(
    alloc: Global,
    script: &str,
    wait: &W,
) -> Result<bool, Fail> {
    let sql = over_sql(alloc, "", script, wait)?;
    let memory = over_memory(alloc, script, wait)?;
    Ok(sql.agrees(&memory))
}
