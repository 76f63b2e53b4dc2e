// Disks that stop at one of their calls under a keeper in a file, in the middle of four writes.
ghost use Rattle.std.specs.Prelude.{IfSome};
ghost use Rattle.mc_model.specs.State.{HasSoundMark};

use mc_base::Cid;
use mc_core::{CoreError, OpenError, Replica};
use mc_keep::{KeepError, Keeper};
use mc_keep_sql::SqlKeeper;
use sqlite::{Connection, FileStore, Files, Options};
use sqlite_disk::{Crash, Disk, Fuse, Memory};
use std::alloc::{AllocError, Global};
use std::test::Fail;

// More than the calls of a whole run.
const MOST: u64 = 1_000;

// How many frames a log has before it is copied into the database. So few, that a run writes there, too.
const FRAMES: usize = 16;

// What a run of the four writes left.
#[derive(Drop)]
struct Survived {
    acknowledged: u64,
    // The processed blocks where all that was written is there, as where the program stops.
    written: Vec<Cid>,
    // Those where only what was synced is there, as where the machine stops.
    synced: Vec<Cid>,
}

fn options() -> Options {
    let mut options = Options::new(1);
    options.checkpoint_frames = FRAMES;
    options
}

/// The connection to these files. None where they were not opened.
pub(crate) fn connected<D: Disk + Drop>(
    alloc: Global,
    files: Files<D>,
) -> Option<Connection<FileStore<D>>> {
    if !(files.log.may_be_used() && files.db.may_be_used()) {
        return None;
    }
    match Connection::open_files(alloc, files, options()) {
        Ok(connection) => Some(connection),
        Err(_) => None,
    }
}

/// The keeper of these files. None where they were not opened, or their tables neither made nor read.
pub(crate) fn adopted<D: Disk + Drop>(
    alloc: Global,
    files: Files<D>,
) -> Option<SqlKeeper<FileStore<D>>> {
    SqlKeeper::adopt(connected(alloc, files)?).ok()
}

fn write<K: Keeper>(replica: &mut Replica<K>, alloc: Global, at: u64) -> Result<(), CoreError> {
    match at {
        0 => drop(replica.put(alloc, "/k", &[1])?),
        1 => drop(replica.put(alloc, "/k", &[2])?),
        2 => drop(replica.delete(alloc, "/k")?),
        _ => drop(replica.put(alloc, "/m", &[3])?),
    }
    Ok(())
}

// How many of the four writes are acknowledged before one is not.
fn write_all<K: Keeper>(replica: &mut Replica<K>, alloc: Global) -> u64 {
    for at in 0..4 {
        if write(replica, alloc, at).is_err() {
            return at;
        }
    }
    4
}

// The four writes over this keeper: how many were acknowledged, and the keeper.
fn written<K: Keeper>(alloc: Global, keeper: K) -> (u64, K)
    requires { IfSome (K.told keeper) HasSoundMark }
{
    match Replica::open(alloc, keeper) {
        Ok(mut replica) => {
            let acknowledged = write_all(&mut replica, alloc);
            (acknowledged, replica.stop())
        }
        Err(error) => {
            let OpenError { cause: _, keeper } = error;
            (0, keeper)
        }
    }
}

// The processed blocks of a keeper, in order.
fn processed<K: Keeper>(keeper: &mut K, alloc: Global) -> Result<Vec<Cid>, KeepError> {
    let mut order = Vec::new(alloc);
    for at in 0..9 {
        match keeper.at(at)? {
            Some(cid) => push(&mut order, cid)?,
            None => return Ok(order),
        }
    }
    Ok(order)
}

fn push(order: &mut Vec<Cid>, cid: Cid) -> Result<(), AllocError> {
    order.push(cid)?;
    Ok(())
}

// The processed blocks of a keeper whose rows agree and whose mark is clear.
fn sound_order<K: Keeper>(keeper: &mut K, alloc: Global) -> Result<Vec<Cid>, Fail> {
    let order = processed(keeper, alloc)?;
    let summary = keeper.summary()?;
    if summary.processed != order.len() as u64 || summary.gaps != 0 || summary.mark {
        return Err(Fail::new("a summary that is not that of the order"));
    }
    Ok(order)
}

// The processed blocks that are in these files.
fn order_in<D: Disk + Drop>(alloc: Global, files: Files<D>) -> Result<Vec<Cid>, Fail> {
    let Some(mut keeper) = adopted(alloc, files) else {
        return Err(Fail::new("files that are not opened again"));
    };
    sound_order(&mut keeper, alloc)
}

// Those that are there after a crash.
fn order_after_crash<D: Crash + Drop>(alloc: Global, files: Files<D>) -> Result<Vec<Cid>, Fail> {
    let Files { mut log, mut db } = files;
    log.crash();
    db.crash();
    order_in(alloc, Files { log, db })
}

// Runs the writes over these files, of which one stops at some call: how many were acknowledged, and the files. None
// where they stopped before there was a keeper.
fn stopped<D: Disk + Drop>(alloc: Global, files: Files<D>) -> Option<(u64, Files<D>)> {
    let (acknowledged, keeper) = written(alloc, adopted(alloc, files)?);
    let files = keeper.into_connection().into_store().close();
    Some((acknowledged, files))
}

/// A file with all that was written to this one, which makes so many calls before it stops.
pub(crate) fn copied(alloc: Global, file: &Fuse<Memory>, calls: u64) -> Result<Fuse<Memory>, Fail> {
    let mut copy = Memory::new(alloc);
    copy.write_at(0, file.inner().bytes())?;
    copy.sync()?;
    Ok(Fuse::new(copy, calls))
}

fn order_of_written(alloc: Global, files: &Files<Fuse<Memory>>) -> Result<Vec<Cid>, Fail> {
    let log = copied(alloc, &files.log, u64::MAX)?;
    let db = copied(alloc, &files.db, u64::MAX)?;
    order_in(alloc, Files { log, db })
}

// Runs the writes over new files in memory, whose log and database make so many calls before they stop.
fn stopped_after(alloc: Global, log: u64, db: u64) -> Result<Option<Survived>, Fail> {
    let files = Files {
        log: Fuse::new(Memory::new(alloc), log),
        db: Fuse::new(Memory::new(alloc), db),
    };
    let Some((acknowledged, files)) = stopped(alloc, files) else {
        return Ok(None);
    };
    Ok(Some(Survived {
        acknowledged,
        written: order_of_written(alloc, &files)?,
        synced: order_after_crash(alloc, files)?,
    }))
}

// Whether some blocks are the first ones of all, with every acknowledged one.
fn is_prefix(all: &[Cid], acknowledged: u64, some: &[Cid]) -> bool {
    all.starts_with(some) && acknowledged <= some.len() as u64
}

fn are_prefixes(all: &[Cid], survived: &Survived) -> bool {
    is_prefix(all, survived.acknowledged, survived.written.as_slice())
        && is_prefix(all, survived.acknowledged, survived.synced.as_slice())
}

// Lets the log or the database stop at each of its calls, until a run is not stopped. Gives how many were.
fn stops(alloc: Global, all: &[Cid], on_log: bool) -> Result<u64, Fail> {
    let mut stopped: u64 = 0;
    for calls in 0..MOST {
        let (log, db) = if on_log {
            (calls, u64::MAX)
        } else {
            (u64::MAX, calls)
        };
        let Some(survived) = stopped_after(alloc, log, db)? else {
            continue;
        };
        if !are_prefixes(all, &survived) {
            return Err(Fail::new("blocks that are not the first ones"));
        }
        if survived.acknowledged == 4 {
            return Ok(stopped);
        }
        stopped = stopped.saturating_add(1);
    }
    Err(Fail::new("a run of more calls"))
}

// The four blocks, in order.
fn all_blocks(alloc: Global) -> Result<Vec<Cid>, Fail> {
    match stopped_after(alloc, u64::MAX, u64::MAX)? {
        Some(survived) => Ok(survived.synced),
        None => Err(Fail::new("files that are not opened")),
    }
}

#[test]
fn acknowledged_writes_outlive_a_stop_of_the_log(rt: HostRuntime) -> Result<(), Fail> {
    let all = all_blocks(rt.alloc())?;
    assert_eq!(rt; all.len(), 4);
    let stopped = stops(rt.alloc(), all.as_slice(), true)?;
    // Each of the eight commits writes at least twice and syncs.
    assert!(rt; stopped >= 24, "{stopped}");
    Ok(())
}

#[test]
fn acknowledged_writes_outlive_a_stop_of_the_database(rt: HostRuntime) -> Result<(), Fail> {
    let all = all_blocks(rt.alloc())?;
    let stopped = stops(rt.alloc(), all.as_slice(), false)?;
    // The log is copied more than once, page by page.
    assert!(rt; stopped >= 8, "{stopped}");
    Ok(())
}
