// Keepers over connections in memory.
use mc_keep::KeepError;
use mc_keep_sql::SqlKeeper;
use sqlite::types::ValueRef;
use sqlite::{Alter, Connection, MemStore};
use std::alloc::Global;

/// The tables that a file of layout 1 has.
pub const LAYOUT_ONE: &str = "\
CREATE TABLE meta (id INTEGER PRIMARY KEY, layout INTEGER NOT NULL, dirty INTEGER NOT NULL);\
CREATE TABLE block (cid BLOB PRIMARY KEY NOT NULL, bytes BLOB NOT NULL);\
CREATE TABLE mark (pos INTEGER PRIMARY KEY, cid BLOB NOT NULL UNIQUE);\
CREATE TABLE link (cid BLOB PRIMARY KEY NOT NULL);\
CREATE TABLE head (cid BLOB PRIMARY KEY NOT NULL, height BLOB NOT NULL);\
CREATE TABLE element (key BLOB NOT NULL, cid BLOB NOT NULL, value BLOB NOT NULL, priority BLOB NOT NULL, PRIMARY KEY (key, cid, value));\
CREATE TABLE tomb (key BLOB NOT NULL, id BLOB NOT NULL, PRIMARY KEY (key, id));\
CREATE TABLE value (key BLOB PRIMARY KEY NOT NULL, priority BLOB NOT NULL, value BLOB NOT NULL);\
INSERT INTO meta (id, layout, dirty) VALUES (1, 1, 0)";

/// A connection in memory after these statements.
pub fn after(alloc: Global, statements: &str) -> Result<Connection<MemStore>, KeepError> {
    changed(Connection::open_in_memory(alloc)?, statements)
}

/// A keeper that adopted a connection in memory, once more after these statements over its tables, if there are any.
pub fn in_memory(alloc: Global, before: &str) -> Result<SqlKeeper<MemStore>, KeepError> {
    let connection = Connection::open_in_memory(alloc)?;
    adopt_after(connection, before)
}

// A keeper that adopted this connection, once more after these statements over its tables, if there are any.
fn adopt_after<S: Alter + Drop>(
    connection: Connection<S>,
    before: &str,
) -> Result<SqlKeeper<S>, KeepError> {
    let keeper = SqlKeeper::adopt(connection)?;
    if before.is_empty() {
        return Ok(keeper);
    }
    SqlKeeper::adopt(changed(keeper.into_connection(), before)?)
}

/// The connection after these statements.
pub fn changed<S: Alter + Drop>(
    connection: Connection<S>,
    statements: &str,
) -> Result<Connection<S>, KeepError> {
    let mut connection = connection;
    match connection.execute_batch(statements) {
        Ok(()) => Ok(connection),
        Err(_) => Err(KeepError::Failed),
    }
}

/// The number that a query gives.
pub fn number<S: Alter>(connection: &mut Connection<S>, sql: &str) -> Option<u64> {
    let Ok(rows) = connection.query_all(sql, &[]) else {
        return None;
    };
    match rows.first()?.get_ref(0) {
        Ok(ValueRef::Int(number)) => u64::try_from(number).ok(),
        _ => None,
    }
}
