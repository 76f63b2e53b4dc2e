// Tables of layout 1 that are migrated, with a stop before and after each commit, and with disks that stop.
use crate::migrated::{migrated, migrated_twice};
use crate::stops::{adopted, connected, copied};
use crate::tables::{LAYOUT_ONE, after, changed, number};
use mc_database::opened;
use mc_keep::{Fused, KeepError, Keeper, Layout};
use mc_keep_sql::SqlKeeper;
use sqlite::types::ValueRef;
use sqlite::{Alter, Connection, Files, MemStore};
use sqlite_disk::{Crash, Disk, Fuse, Memory};
use std::alloc::Global;
use std::test::Fail;

// More than the calls of a whole migration.
const MOST: u64 = 2_000;

// What a key has: an element of the least block, which is hidden, and the same element of two other blocks, the greater one
// first.
const ROWS: [&str; 4] = [
    "INSERT INTO element (key, cid, value, priority) VALUES (?1, x'0000000000000000000000000000000000000000000000000000000000000000', x'02', x'0000000000000001')",
    "INSERT INTO element (key, cid, value, priority) VALUES (?1, x'0202020202020202020202020202020202020202020202020202020202020202', x'01', x'0000000000000001')",
    "INSERT INTO element (key, cid, value, priority) VALUES (?1, x'0101010101010101010101010101010101010101010101010101010101010101', x'01', x'0000000000000001')",
    "INSERT INTO tomb (key, id) VALUES (?1, x'2f43495141414141414141414141414141414141414141414141414141414141414141414141414141414141414141414141414141414141')",
];

// That of a third block, which is greater for two keys of three, and the key's value.
const VALUED_ROWS: [&str; 2] = [
    "INSERT INTO element (key, cid, value, priority) VALUES (?1, x'0303030303030303030303030303030303030303030303030303030303030303', ?2, x'0000000000000001')",
    "INSERT INTO value (key, priority, value) VALUES (?1, x'0000000000000001', ?2)",
];

fn execute<'x, S: Alter>(
    connection: &'x mut Connection<S>,
    sql: &'x str,
    params: &'x [ValueRef<'x>],
) -> Result<(), KeepError> {
    match connection.execute(sql, params) {
        Ok(_) => Ok(()),
        Err(_) => Err(KeepError::Failed),
    }
}

fn value_of(number: u64) -> &'static [u8] {
    if number % 3 == 0 {
        return b"\x01";
    }
    b"\x02"
}

// Adds the rows of the key with this number.
fn add<S: Alter>(
    connection: &mut Connection<S>,
    alloc: Global,
    number: u64,
) -> Result<(), KeepError> {
    let key = format!(in alloc; "/k/{number}")?;
    let key = ValueRef::Blob(key.as_bytes());
    for sql in ROWS {
        execute(connection, sql, &[key])?;
    }
    for sql in VALUED_ROWS {
        execute(connection, sql, &[key, ValueRef::Blob(value_of(number))])?;
    }
    Ok(())
}

// Adds the rows of so many keys.
fn fill<S: Alter>(
    connection: &mut Connection<S>,
    alloc: Global,
    keys: u64,
) -> Result<(), KeepError> {
    execute(connection, "BEGIN", &[])?;
    for number in 0..keys {
        add(connection, alloc, number)?;
    }
    execute(connection, "COMMIT", &[])
}

// A keeper of layout 1 with so many keys.
fn filled(alloc: Global, keys: u64) -> Result<SqlKeeper<MemStore>, KeepError> {
    let mut connection = after(alloc, LAYOUT_ONE)?;
    fill(&mut connection, alloc, keys)?;
    SqlKeeper::adopt(connection)
}

// What the tables must be for so many keys: each query gives the number of keys, or the number beside it.
const WANTED: [(&str, Option<u64>); 5] = [
    ("SELECT layout FROM meta", Some(2)),
    ("SELECT count(*) FROM progress", Some(0)),
    ("SELECT count(*) FROM value", None),
    ("SELECT count(*) FROM tomb", None),
    ("SELECT count(*) FROM winner", None),
];

// The keys whose value two blocks give, of which the lesser one must win, and those whose value the third block gives. A query
// that joins the tables would take time in the square of the keys.
const TIED: &str =
    "SELECT count(*) FROM winner WHERE cid = x'0101010101010101010101010101010101010101010101010101010101010101'";

const GREATER: &str =
    "SELECT count(*) FROM winner WHERE cid = x'0303030303030303030303030303030303030303030303030303030303030303'";

// Whether the tables are those of layout 2 with so many keys.
fn is_whole<S: Alter>(connection: &mut Connection<S>, keys: u64) -> bool {
    for (sql, wanted) in WANTED {
        if number(connection, sql) != Some(wanted.unwrap_or(keys)) {
            return false;
        }
    }
    let tied = keys.saturating_add(2) / 3;
    let greater = keys.saturating_sub(tied);
    number(connection, TIED) == Some(tied) && number(connection, GREATER) == Some(greater)
}

// Whether a query with these values gives a row.
fn is_there<'x, S: Alter>(
    connection: &'x mut Connection<S>,
    sql: &'x str,
    params: &'x [ValueRef<'x>],
) -> Result<bool, KeepError> {
    match connection.query_all(sql, params) {
        Ok(rows) => Ok(rows.first().is_some()),
        Err(_) => Err(KeepError::Failed),
    }
}

// Whether the key with this number has the winner that it must have.
fn is_won<S: Alter>(
    connection: &mut Connection<S>,
    alloc: Global,
    number: u64,
) -> Result<bool, KeepError> {
    let key = format!(in alloc; "/k/{number}")?;
    let cid = [if number % 3 == 0 { 1 } else { 3 }; 32];
    is_there(
        connection,
        "SELECT 1 FROM winner WHERE key = ?1 AND cid = ?2",
        &[ValueRef::Blob(key.as_bytes()), ValueRef::Blob(&cid)],
    )
}

// Whether the tables are those of layout 2 with so many keys, each with the winner that it must have.
fn is_exact<S: Alter>(
    connection: &mut Connection<S>,
    alloc: Global,
    keys: u64,
) -> Result<bool, KeepError> {
    for number in 0..keys {
        if !is_won(connection, alloc, number)? {
            return Ok(false);
        }
    }
    Ok(is_whole(connection, keys))
}

// What a migration does over so many keys, where the tables are right then, and a keeper that adopts them has none to do.
fn sized(alloc: Global, keys: u64) -> Result<Option<(u64, u64)>, KeepError> {
    let (done, keeper) = migrated_twice(alloc, filled(alloc, keys)?);
    let mut connection = keeper.into_connection();
    if !is_exact(&mut connection, alloc, keys)? {
        return Ok(None);
    }
    let (more, _) = migrated_twice(alloc, SqlKeeper::adopt(connection)?);
    if more != Some((0, 0)) {
        return Ok(None);
    }
    Ok(done)
}

#[test]
fn each_commit_takes_1024_keys(rt: HostRuntime) -> Result<(), Fail> {
    // how many keys there are, and how many commits take them
    let rows = [
        (0, 1),
        (1, 1),
        (1_023, 1),
        (1_024, 2),
        (1_025, 2),
        (2_048, 3),
        (5_000, 5),
    ];
    for (keys, commits) in rows {
        let done = sized(rt.alloc(), keys)?;
        assert!(rt; done == Some((keys, commits)), "{keys}");
    }
    Ok(())
}

// Lets the commit after so many ones fail, before its effect or after it, and says whether the migration failed.
fn stopped<K: Keeper>(alloc: Global, keeper: K, commits: u64, after: bool) -> (bool, K) {
    let mut fused = Fused::wrap(keeper);
    fused.arm(commits.saturating_add(1), after);
    let failed = migrated(alloc, &mut fused).is_none();
    (failed, fused.end())
}

// What the migration after a stopped one does, over the same keeper or over one that adopts its tables anew.
fn next(
    alloc: Global,
    commits: u64,
    after: bool,
    anew: bool,
) -> Result<Option<(u64, u64)>, KeepError> {
    let (failed, keeper) = stopped(alloc, filled(alloc, 2_048)?, commits, after);
    if !failed {
        return Ok(None);
    }
    let (done, keeper) = if anew {
        migrated_twice(alloc, SqlKeeper::adopt(keeper.into_connection())?)
    } else {
        migrated_twice(alloc, keeper)
    };
    if !is_exact(&mut keeper.into_connection(), alloc, 2_048)? {
        return Ok(None);
    }
    Ok(done)
}

#[test]
fn a_migration_goes_on_after_a_stop_at_each_commit(rt: HostRuntime) -> Result<(), Fail> {
    // the commits before the one that fails, whether it fails after its effect, and what the next migration does
    let rows = [
        (0, false, (2_048, 3)),
        (0, true, (1_024, 2)),
        (1, false, (1_024, 2)),
        (1, true, (0, 1)),
        (2, false, (0, 1)),
        (2, true, (0, 0)),
    ];
    for (commits, after, wanted) in rows {
        for anew in [false, true] {
            let done = next(rt.alloc(), commits, after, anew)?;
            assert!(rt; done == Some(wanted), "{commits} {after} {anew}");
        }
    }
    Ok(())
}

// The files of a store of layout 1 with so many keys.
fn files_of(alloc: Global, keys: u64) -> Result<Files<Fuse<Memory>>, Fail> {
    let files = Files {
        log: Fuse::new(Memory::new(alloc), u64::MAX),
        db: Fuse::new(Memory::new(alloc), u64::MAX),
    };
    let Some(connection) = connected(alloc, files) else {
        return Err(Fail::new("files that are not opened"));
    };
    let mut connection = changed(connection, LAYOUT_ONE)?;
    fill(&mut connection, alloc, keys)?;
    Ok(connection.into_store().close())
}

// How many of so many keys, which two commits take at most, have no winner row by the layout of a keeper.
fn left_by<K: Keeper>(alloc: Global, keeper: &mut K, keys: u64) -> Option<u64> {
    match keeper.layout(alloc) {
        Ok(Layout::One { upto: None }) => Some(keys),
        Ok(Layout::One { upto: Some(_) }) => Some(keys.saturating_sub(1_024)),
        Ok(Layout::Two) => Some(0),
        Err(_) => None,
    }
}

// Migrates a keeper, and says how many keys are left by its layout.
fn left_after<K: Keeper>(alloc: Global, keeper: K, keys: u64) -> (Option<u64>, K) {
    let mut keeper = keeper;
    let _ = migrated(alloc, &mut keeper);
    (left_by(alloc, &mut keeper, keys), keeper)
}

// How many keys a migration of these files takes. None where the tables are not right then.
fn taken_in<D: Disk + Drop>(
    alloc: Global,
    files: Files<D>,
    keys: u64,
) -> Result<Option<u64>, Fail> {
    let Some(keeper) = adopted(alloc, files) else {
        return Err(Fail::new("files that are not opened again"));
    };
    let (done, keeper) = migrated_twice(alloc, keeper);
    if !is_whole(&mut keeper.into_connection(), keys) {
        return Ok(None);
    }
    Ok(done.map(|(taken, _)| taken))
}

// What a migration that a disk stops leaves: how many keys are left by the keeper, and how many the next one takes where
// all that was written is there, and where only what was synced is.
type Left = (Option<u64>, Option<u64>, Option<u64>);

fn taken_after_crash<D: Crash + Drop>(
    alloc: Global,
    files: Files<D>,
    keys: u64,
) -> Result<Option<u64>, Fail> {
    let Files { mut log, mut db } = files;
    log.crash();
    db.crash();
    taken_in(alloc, Files { log, db }, keys)
}

fn copies(
    alloc: Global,
    files: &Files<Fuse<Memory>>,
    log: u64,
    db: u64,
) -> Result<Files<Fuse<Memory>>, Fail> {
    Ok(Files {
        log: copied(alloc, &files.log, log)?,
        db: copied(alloc, &files.db, db)?,
    })
}

// Migrates these files, whose log and database make so many calls before they stop. None where they stopped before there
// was a keeper.
fn left_in(alloc: Global, files: Files<Fuse<Memory>>, keys: u64) -> Result<Option<Left>, Fail> {
    let Some(keeper) = adopted(alloc, files) else {
        return Ok(None);
    };
    let (left, keeper) = left_after(alloc, keeper, keys);
    let files = keeper.into_connection().into_store().close();
    let written = taken_in(alloc, copies(alloc, &files, u64::MAX, u64::MAX)?, keys)?;
    Ok(Some((left, written, taken_after_crash(alloc, files, keys)?)))
}

// Whether the next migration takes no key whose commit was acknowledged, and comes to the right tables.
fn goes_on(left: &Left) -> bool {
    match left {
        (Some(left), Some(written), Some(synced)) => written <= left && synced <= left,
        _ => false,
    }
}

// Which disk stops, and at which of its calls: at each `step`-th one.
#[derive(Clone, Copy)]
struct StopPlan {
    keys: u64,
    on_log: bool,
    step: u64,
}

// Lets the log or the database of these files stop, at one call after another, until a migration is not stopped. Gives how
// many were.
fn stops(alloc: Global, files: &Files<Fuse<Memory>>, which: StopPlan) -> Result<u64, Fail> {
    let mut stopped: u64 = 0;
    for turn in 0..MOST {
        let calls = turn.saturating_mul(which.step);
        let (log, db) = if which.on_log {
            (calls, u64::MAX)
        } else {
            (u64::MAX, calls)
        };
        let Some(left) = left_in(alloc, copies(alloc, files, log, db)?, which.keys)? else {
            continue;
        };
        if !goes_on(&left) {
            return Err(Fail::new("a migration that does not go on"));
        }
        if left == (Some(0), Some(0), Some(0)) {
            return Ok(stopped);
        }
        stopped = stopped.saturating_add(1);
    }
    Err(Fail::new("a migration of more calls"))
}

#[test]
fn a_migration_goes_on_after_a_stop_of_the_log_or_the_database(
    rt: HostRuntime,
) -> Result<(), Fail> {
    // how many keys there are, at which calls a disk stops, and how many migrations that stops at least: each commit writes
    // its pages to the log and syncs, which is copied where it is long; two commits take the keys of the last two rows
    let rows = [(40, true, 1, 4), (1_025, true, 7, 2), (1_025, false, 5, 1)];
    for (keys, on_log, step, least) in rows {
        let files = files_of(rt.alloc(), keys)?;
        let stopped = stops(rt.alloc(), &files, StopPlan { keys, on_log, step })?;
        assert!(rt; stopped >= least, "{keys} {on_log}: {stopped}");
    }
    Ok(())
}

// Opens the tables in these files: whether no disk stopped it, and the files. None where there was no connection.
fn opening(alloc: Global, files: Files<Fuse<Memory>>) -> Option<(bool, Files<Fuse<Memory>>)> {
    let mut connection = connected(alloc, files)?;
    let done = opened(&mut connection).is_ok();
    Some((done, connection.into_store().close()))
}

// Whether a migration of these files takes so many keys, where all that was written is there and where only what was synced
// is.
fn all_are_taken(alloc: Global, files: Files<Fuse<Memory>>, keys: u64) -> Result<bool, Fail> {
    let written = taken_in(alloc, copies(alloc, &files, u64::MAX, u64::MAX)?, keys)?;
    Ok(written == Some(keys) && taken_after_crash(alloc, files, keys)? == Some(keys))
}

#[test]
fn an_opening_goes_on_after_a_stop_of_the_log(rt: HostRuntime) -> Result<(), Fail> {
    let files = files_of(rt.alloc(), 3)?;
    for calls in 0..MOST {
        let Some((done, files)) = opening(rt.alloc(), copies(rt.alloc(), &files, calls, u64::MAX)?)
        else {
            continue;
        };
        assert!(rt; all_are_taken(rt.alloc(), files, 3)?, "{calls}");
        if done {
            return Ok(());
        }
    }
    Err(Fail::new("an opening of more calls"))
}
