// Statements over files.
use crate::tables::changed;
use mc_keep::KeepError;
use sqlite::{Connection, Error, FileStore};
use sqlite_disk::Disk;

/// Runs these statements over a connection to files, and closes them.
pub(crate) fn close_after<D: Disk + Drop>(
    connection: Connection<FileStore<D>>,
    statements: &str,
) -> Result<(), KeepError> {
    match changed(connection, statements)?.close() {
        Ok(()) => Ok(()),
        Err(_) => Err(KeepError::Failed),
    }
}

/// Runs these statements over a file, and closes it.
pub fn change_file<D: Disk + Drop>(
    connection: Result<Connection<FileStore<D>>, Error>,
    statements: &str,
) -> Result<(), KeepError> {
    match connection {
        Ok(connection) => close_after(connection, statements),
        Err(_) => Err(KeepError::Failed),
    }
}
