// What a keeper asks of its database, and a file as one.
use crate::blank::shorten_pages;
use crate::cause::{FileCause, cause_of, cause_of_files};
use crate::changing;
use crate::log::Log;
use mc_base::Failed;
use mc_keep::Changes;
use sqlite::types::ValueRef;
use sqlite::{Alter, Connection, File, FileStore, Files, Options, Row, Unknown};
use sqlite_disk::Disk;
use std::hash::{BuildHasher, RandomState};
use std::rt::HostRuntime;

/// What is done in one transaction.
#[derive(Clone, Copy)]
pub enum Work<'a> {
    /// The tables of an empty file are made.
    Tables,
    /// Those that a file of layout 1 lacks are made, where they are not there.
    MoreTables,
    /// Changes are written, where so many blocks have been marked before.
    Commit {
        /// How many blocks have been marked.
        marks: u64,
        /// What is written.
        changes: &'a Changes,
    },
}

/// What a keeper asks of its database. A caller over any database knows nothing of the store below it.
pub trait Database {
    /// All rows of the answer.
    fn rows(&mut self, sql: &str, params: &[ValueRef<'_>]) -> Result<Vec<Row>, Failed>;

    /// Does the work in one transaction, and answers how many heads are none any more. Where it fails the work has been
    /// done wholly or not at all.
    fn transact(&mut self, work: Work<'_>) -> Result<u64, Failed>;
}

// All rows of an answer, or why there are none.
fn rows_of<S: Alter>(
    connection: &mut Connection<S>,
    sql: &str,
    params: &[ValueRef<'_>],
) -> Result<Vec<Row>, FileCause> {
    match connection.query_all(sql, params) {
        Ok(rows) => Ok(rows),
        Err(error) => Err(cause_of(&error)),
    }
}

impl<S: Alter> Database for Connection<S> {
    fn rows(&mut self, sql: &str, params: &[ValueRef<'_>]) -> Result<Vec<Row>, Failed> {
        rows_of(self, sql, params).map_err(|_| Failed)
    }

    fn transact(&mut self, work: Work<'_>) -> Result<u64, Failed> {
        changing::transact(self, work).map_err(|_| Failed)
    }
}

// A connection, and why a call on it failed first.
#[derive(Drop)]
struct Noted<C> {
    connection: C,
    cause: Option<FileCause>,
}

impl<C> Noted<C> {
    // Keeps the cause of an answer, where it is the first.
    fn note<T>(&mut self, answer: Result<T, FileCause>) -> Result<T, Failed> {
        match answer {
            Ok(value) => Ok(value),
            Err(cause) => {
                self.cause = Some(self.cause.unwrap_or(cause));
                Err(Failed)
            }
        }
    }
}

/// A connection to a file, as a type without parameters. Where a generic call is given the file's store, the check
/// compares all that the store promises, which takes it 20 seconds a call; so no other type's calls do that. Dropping
/// it writes nothing.
pub struct FileDatabase {
    noted: Noted<Connection<FileStore<File>>>,
    log: Log,
}

// How many pages stand in the log before it is copied into the file. Each copy takes four syncs, and the commit after it
// one more; so many pages are 16 MB, and 64 MB where they have 4,096 bytes.
const LOG_PAGES: usize = 16_000;

// How a file is opened, with a number that is drawn anew.
fn options_of(seed: u64) -> Options {
    let mut options = Options::new(seed);
    options.checkpoint_frames = LOG_PAGES;
    options
}

// A connection over these files. Where they are refused the log is as it was before.
fn connected<D: Disk + Drop>(
    rt: &HostRuntime,
    files: Files<D>,
    seed: u64,
    log: &Log,
) -> Result<Connection<FileStore<D>>, FileCause> {
    let mut files = files;
    shorten_pages(&mut files)?;
    if !(files.log.may_be_used() && files.db.may_be_used()) {
        return Err(FileCause::ReadOrWrite);
    }
    match Connection::open_files(rt.alloc(), files, options_of(seed)) {
        Ok(connection) => Ok(connection),
        Err((error, left)) => {
            log.take_away(rt);
            drop(left);
            Err(cause_of(&error))
        }
    }
}

// A number that is drawn anew in each run.
fn seed_of(rt: &HostRuntime) -> Result<u64, FileCause> {
    match RandomState::new(rt) {
        Ok(state) => Ok(state.hash_one(&0u8)),
        Err(error) => Err(FileCause::System { error }),
    }
}

impl FileDatabase {
    /// Opens the file with this name, and makes it where it is not there. Its folder must exist. A file that is refused
    /// is left as it is, and no log beside it.
    pub fn open(rt: &HostRuntime, name: &str) -> Result<FileDatabase, FileCause> {
        let Ok(log) = Log::of(rt, name) else {
            return Err(FileCause::Memory);
        };
        let seed = seed_of(rt)?;
        match sqlite_std_file::open(rt, name, Unknown) {
            Ok(files) => {
                let connection = connected(rt, files, seed, &log)?;
                let cause = None;
                Ok(FileDatabase {
                    noted: Noted { connection, cause },
                    log,
                })
            }
            Err(error) => Err(cause_of_files(&error)),
        }
    }

    /// Its connection, which stays open.
    pub fn into_connection(self) -> Connection<FileStore<File>> {
        let FileDatabase { noted, log: _ } = self;
        noted.connection
    }

    /// Copies the log into the file, and closes both. Where that fails the log stays beside the file, with all commits.
    /// Answers why a call failed first, if one did.
    pub fn close(self) -> Option<FileCause> {
        let cause = self.noted.cause;
        let _ = self.into_connection().close();
        cause
    }

    /// Closes a file that is refused for this cause as if it had not been opened. Where a call failed before, the
    /// cause is that one's.
    pub fn refuse(self, rt: &HostRuntime, cause: FileCause) -> FileCause {
        self.log.take_away(rt);
        self.noted.cause.unwrap_or(cause)
    }
}

// It writes nothing: the log stays beside the file.
impl Drop for FileDatabase {
    fn drop(self) {
        let _ = self.into_connection().into_store().close();
    }
}

impl Database for FileDatabase {
    fn rows(&mut self, sql: &str, params: &[ValueRef<'_>]) -> Result<Vec<Row>, Failed> {
        let answer = rows_of(&mut self.noted.connection, sql, params);
        self.noted.note(answer)
    }

    fn transact(&mut self, work: Work<'_>) -> Result<u64, Failed> {
        let answer = changing::transact(&mut self.noted.connection, work);
        self.noted.note(answer)
    }
}
