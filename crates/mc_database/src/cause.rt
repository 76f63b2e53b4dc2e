// Why a file serves no keeper.
use mc_base::Failed;
use sqlite::{Error as SqlError, ErrorCode};
use sqlite_disk::is_no_room;
use sqlite_std_file::OpenError;
use std::io;
use thiserror::Error;

/// Why a file is not opened, or a call on it fails.
#[derive(Clone, Copy, Debug, Error)]
pub enum FileCause {
    /// The system refuses it, as where its folder is not there or a permission is wanting.
    #[error("{error}")]
    System {
        /// What the system says.
        error: io::Error,
    },
    /// Another process has it open.
    #[error("another process has it open")]
    InUse,
    /// Its last writer was stopped in the middle, and only SQLite itself can put that right.
    #[error("it has a rollback journal: open it with sqlite3 first")]
    Journal,
    /// Its bytes are not those of a database, or are damaged.
    #[error("it is no database, or a damaged one")]
    NoDatabase,
    /// Its tables are not those of a store.
    #[error("it is a database of another layout")]
    OtherLayout,
    /// It is a store of a layout that this program does not know.
    #[error("it has layout {number}, and this program knows layouts 1 and 2")]
    UnknownLayout {
        /// The number of its layout.
        number: i64,
    },
    /// A row is not of its table's form.
    #[error("it holds a row that is none of a store")]
    OtherRow,
    /// There is no room.
    #[error("the disk is full")]
    Full,
    /// A read or a write fails, or a statement.
    #[error("a read or a write failed")]
    ReadOrWrite,
    /// Want of memory.
    #[error("out of memory")]
    Memory,
}

// Where a database that is opened lacks a row, or has one of another form.
impl From<Failed> for FileCause {
    fn from(_failed: Failed) -> FileCause {
        FileCause::OtherLayout
    }
}

// The cause of a refused statement, or of files that are not opened.
pub(crate) fn cause_of(error: &SqlError) -> FileCause {
    match error {
        SqlError::SqliteFailure(ErrorCode::NotADatabase | ErrorCode::DatabaseCorrupt) => {
            FileCause::NoDatabase
        }
        SqlError::SqliteFailure(ErrorCode::DiskFull) => FileCause::Full,
        SqlError::SqliteFailure(ErrorCode::OutOfMemory) => FileCause::Memory,
        SqlError::SqlInputError(_) => FileCause::OtherLayout,
        _ => FileCause::ReadOrWrite,
    }
}

// The cause of files that are not found, made or locked.
pub(crate) fn cause_of_files(error: &OpenError) -> FileCause {
    match error {
        OpenError::Io(error) if error.kind() == io::ErrorKind::OutOfMemory => FileCause::Memory,
        OpenError::Io(error) => FileCause::System { error: *error },
        OpenError::OutOfMemory => FileCause::Memory,
        OpenError::Busy => FileCause::InUse,
        OpenError::HotJournal => FileCause::Journal,
    }
}

// The cause of a file that is not read or written.
pub(crate) fn cause_of_disk(error: io::Error) -> FileCause {
    if is_no_room(&error) {
        return FileCause::Full;
    }
    cause_of_files(&OpenError::Io(error))
}
