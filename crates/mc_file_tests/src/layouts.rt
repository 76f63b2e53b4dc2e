// Files of another layout, and folders in which no file is made.
use crate::changing::{change_file, close_after};
use crate::tables::LAYOUT_ONE;
use mc_keep::KeepError;
use mc_keep_sql::{FileKeeper, OpenFault, SqlKeeper};
use sqlite::{Connection, FileStore};
use sqlite_disk::Disk;
use std::fs;
use std::test::Fail;

const FOLDER: &str = "mc_sql_layout_test";

const FILE: &str = "mc_sql_layout_test/a.db";

const LOG: &str = "mc_sql_layout_test/a.db-wal";

// The same over the tables of a keeper.
fn change_tables<D: Disk + Drop>(
    keeper: Result<SqlKeeper<FileStore<D>>, KeepError>,
    statements: &str,
) -> Result<(), KeepError> {
    close_after(keeper?.into_connection(), statements)
}

// A folder of this name without a file.
fn make_folder(rt: &HostRuntime) -> Result<(), Fail> {
    let _ = fs::remove_dir_all(rt, FOLDER);
    fs::create_dir(rt, FOLDER)?;
    Ok(())
}

fn is_refused(rt: &HostRuntime, folder: &str) -> bool {
    matches!(SqlKeeper::open(rt, folder, 0), Err(KeepError::Failed))
}

// Whether the file is refused, and left as it is, without a log beside it.
fn is_left(rt: &HostRuntime) -> Result<bool, Fail> {
    let _ = fs::remove_file(rt, LOG);
    let before = fs::read(rt, FILE)?;
    let refused = is_refused(rt, FOLDER);
    let after = fs::read(rt, FILE)?;
    Ok(
        refused
            && !before.is_empty()
            && before.as_slice() == after.as_slice()
            && fs::metadata(rt, LOG).is_err(),
    )
}

#[test]
fn a_file_of_another_layout_is_left(rt: HostRuntime) -> Result<(), Fail> {
    for statements in ["UPDATE meta SET layout = 3", "DROP TABLE link"] {
        make_folder(&rt)?;
        change_tables(SqlKeeper::open(&rt, FOLDER, 0), statements)?;
        assert!(rt; is_left(&rt)?, "{statements}");
    }
    fs::remove_dir_all(&rt, FOLDER)?;
    Ok(())
}

// Why the file is refused, as it is said.
fn said_of(rt: &HostRuntime) -> Result<String, Fail> {
    match FileKeeper::open(rt, FOLDER, 0) {
        Err(OpenFault::Refused { fault }) => Ok(format!(in rt.alloc(); "{fault}")?),
        _ => Err(Fail::new("a file that is not refused")),
    }
}

#[test]
fn the_number_of_an_unknown_layout_is_said(rt: HostRuntime) -> Result<(), Fail> {
    make_folder(&rt)?;
    let statements = "UPDATE meta SET layout = 3";
    change_tables(SqlKeeper::open(&rt, FOLDER, 0), statements)?;
    let said = "mc_sql_layout_test/a.db: it has layout 3, and this program knows layouts 1 and 2";
    assert_eq!(rt; said_of(&rt)?.as_str(), said);
    fs::remove_dir_all(&rt, FOLDER)?;
    Ok(())
}

// A file of layout 1 that lacks one of its tables.
#[test]
fn a_file_of_layout_1_that_is_refused_is_left(rt: HostRuntime) -> Result<(), Fail> {
    make_folder(&rt)?;
    let statements = format!(in rt.alloc(); "{LAYOUT_ONE}; DROP TABLE link")?;
    change_file(Connection::open(&rt, FILE), statements.as_str())?;
    assert!(rt; is_left(&rt)?);
    fs::remove_dir_all(&rt, FOLDER)?;
    Ok(())
}

#[test]
fn a_file_of_another_program_is_left(rt: HostRuntime) -> Result<(), Fail> {
    make_folder(&rt)?;
    let statements =
        "CREATE TABLE note (id INTEGER PRIMARY KEY, title TEXT); INSERT INTO note VALUES (1, 'a')";
    change_file(Connection::open(&rt, FILE), statements)?;
    assert!(rt; is_left(&rt)?);
    make_folder(&rt)?;
    fs::write(&rt, FILE, "Sqlite")?;
    assert!(rt; is_left(&rt)?);
    fs::remove_dir_all(&rt, FOLDER)?;
    Ok(())
}

#[test]
fn a_folder_without_room_for_files_is_refused(rt: HostRuntime) -> Result<(), Fail> {
    assert!(rt; is_refused(&rt, "/proc"));
    assert!(rt; is_refused(&rt, "/dev/null"));
    assert!(rt; is_refused(&rt, "mc_sql_no_folder"));
    Ok(())
}

// How long the pages of the file are, as its header says it.
fn page_length(rt: &HostRuntime) -> Result<u64, Fail> {
    let bytes = fs::read(rt, FILE)?;
    match bytes.as_slice() {
        [
            _,
            _,
            _,
            _,
            _,
            _,
            _,
            _,
            _,
            _,
            _,
            _,
            _,
            _,
            _,
            _,
            high,
            low,
            ..
        ] => { Ok(u64::from(*high) * 256 + u64::from(*low)) }
        _ => Err(Fail::new("a file without a header")),
    }
}

#[test]
fn an_empty_file_gets_short_pages_and_another_one_keeps_its_own(
    rt: HostRuntime,
) -> Result<(), Fail> {
    // what a crash may leave of the first page
    for left in ["", "\0\0\0", "SQLite format 3\0"] {
        make_folder(&rt)?;
        fs::write(&rt, FILE, left)?;
        change_tables(SqlKeeper::open(&rt, FOLDER, 0), "UPDATE meta SET dirty = 0")?;
        assert_eq!(rt; page_length(&rt)?, 1_024, "{left}");
    }
    make_folder(&rt)?;
    change_file(Connection::open(&rt, FILE), LAYOUT_ONE)?;
    let before = page_length(&rt)?;
    change_tables(SqlKeeper::open(&rt, FOLDER, 0), "UPDATE meta SET dirty = 0")?;
    assert_eq!(rt; (before, page_length(&rt)?), (4_096, 4_096));
    fs::remove_dir_all(&rt, FOLDER)?;
    Ok(())
}
